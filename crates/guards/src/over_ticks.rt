// The ticks at which conditions and guards hold, supposing that no clock is zeroed and no variable changes.
//
// A span is right from the last zeroing of a clock on, up to the last tick.
ghost use Rattle.std.specs.Prelude.{◌≡◌, ℕ, ◌-◌, ◌≤◌, min, max, pos};
ghost use Rattle.runs.specs.Guards.{compares, guard_holds};
ghost use Rattle.guards.specs.Spans.{ZeroedBy, Spans, ConditionSpans, MeetsPlace, GuardSpans, FirstTick, GuardIsAnInterval};

use crate::at_tick::last_zeroing;
use crate::span::Span;
use crate::valuation::Valuation;
use parts::LAST_TICK;
use parts::part::{Condition, Relation};

const ALL: Span = Span {
    low: 0,
    high: LAST_TICK,
};

const NONE: Span = Span { low: 1, high: 0 };

impl Span {
    // What two spans have in common.
    pub fn meet(self, other: Span) -> Span
        ensures low { result.low ≡ max self.low other.low }
        ensures high { result.high ≡ min self.high other.high }
    {
        Span {
            low: self.low.max(other.low),
            high: self.high.min(other.high),
        }
    }
}

// All ticks or none.
fn all_or_none(all: bool) -> Span
    ensures { Spans 0 (λ _. all) result }
{
    if all { ALL } else { NONE }
}

// When a clock that was zeroed last at `start` compares so with a constant.
fn clock_span(relation: Relation, start: u32, k: u32) -> Span
    ensures { Spans start (λ t. compares relation (pos (t - start)) (pos k)) result }
{
    let tick = start.saturating_add(k);
    match relation {
        Relation::Lt if k == 0 => NONE,
        Relation::Lt => Span {
            low: 0,
            high: tick - 1,
        },
        Relation::Le => Span { low: 0, high: tick },
        Relation::Eq => Span {
            low: tick,
            high: tick,
        },
        Relation::Ge => Span {
            low: tick,
            high: LAST_TICK,
        },
        Relation::Gt => Span {
            low: tick.saturating_add(1),
            high: LAST_TICK,
        },
    }
}

impl Valuation<'_> {
    pub fn condition_span(self, condition: &Condition) -> Span
        ensures { ConditionSpans self.entry.zeroed.now self.entry.values.now condition.now result }
    {
        match *condition {
            Condition::Clock(clock, relation, k) => clock_span(
                relation,
                last_zeroing(self.zeroed, clock),
                k,
            ),
            // both clocks go on together, and a variable stays as it is
            Condition::Difference(..) | Condition::Variable(..) => {
                all_or_none(self.condition_holds(condition, LAST_TICK))
            }
        }
    }

    // What a span and that of the condition in a place have in common. An empty place takes nothing from it.
    fn meet_place(self, span: Span, place: &Option<Condition>) -> Span
        ensures { MeetsPlace self.entry.zeroed.now self.entry.values.now span place.now result }
    {
        match place {
            None => span,
            Some(c) => span.meet(self.condition_span(c)),
        }
    }

    // What the spans of a guard's conditions have in common.
    pub fn guard_span(self, guard: &[Option<Condition>]) -> Span
        ensures { GuardSpans self.entry.zeroed.now self.entry.values.now guard.now result }
    {
        guard
            .iter()
            .fold(ALL, |span, place| self.meet_place(span, place))
    }

    // The first tick from a tick on at which a guard holds, or none up to the last tick.
    pub fn first_tick(self, guard: &[Option<Condition>], from: u32) -> Option<u32>
        ensures { ZeroedBy self.entry.zeroed.now from → FirstTick from (λ t. guard_holds self.entry.zeroed.now self.entry.values.now t guard.now) result }
    {
        let span = self.guard_span(guard).meet(Span {
            low: from,
            high: LAST_TICK,
        });
        (span.low <= span.high).then_some(span.low)
    }
}

// A guard holds on an interval of ticks.
pub fn guard_is_an_interval()
    ensures { GuardIsAnInterval }
{}
