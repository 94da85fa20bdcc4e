// Whether conditions, guards and invariants hold at a tick.
//
// What needs the clocks alone takes `zeroed`, and what needs the variables alone `values`: the fields of a valuation. The
// tick stands apart, since one valuation is asked of at many ticks.
ghost use Rattle.std.specs.Prelude.{◌≡◌, pos, slice_index, slice_index_or};
ghost use Rattle.runs.specs.Guards.{compares, clock as clock_at, holds, if_used, guard_holds, keeps, all_keep, may_stay_in};

use crate::valuation::Valuation;
use parts::part::{Condition, Invariant, Location, Relation};

pub fn compare(relation: Relation, x: i64, y: i64) -> bool
    ensures { result ≡ compares relation x y }
{
    match relation {
        Relation::Lt => x < y,
        Relation::Le => x <= y,
        Relation::Eq => x == y,
        Relation::Ge => x >= y,
        Relation::Gt => x > y,
    }
}

// The tick at which a clock was zeroed last. A library call, like others of its kind: the name says what counts as what
// behind the end.
pub fn last_zeroing(zeroed: &[u32], clock: u8) -> u32
    ensures { result ≡ slice_index zeroed.now clock }
{
    zeroed.get(clock as usize).copied().unwrap_or(0)
}

pub fn clock_value(zeroed: &[u32], clock: u8, tick: u32) -> u32
    ensures { result ≡ clock_at zeroed.now tick clock }
{
    tick.saturating_sub(last_zeroing(zeroed, clock))
}

pub fn variable_value(values: &[i16], variable: u8) -> i16
    ensures { result ≡ slice_index_or values.now variable (pos 0) }
{
    values.get(variable as usize).copied().unwrap_or(0)
}

impl Valuation<'_> {
    pub fn condition_holds(self, condition: &Condition, tick: u32) -> bool
        ensures { result ≡ holds self.entry.zeroed.now self.entry.values.now tick condition.now }
    {
        match *condition {
            Condition::Clock(clock, relation, k) => compare(
                relation,
                clock_value(self.zeroed, clock, tick) as i64,
                k as i64,
            ),
            Condition::Difference(first, second, relation, k) => {
                let difference = clock_value(self.zeroed, first, tick) as i64
                    - clock_value(self.zeroed, second, tick) as i64;
                compare(relation, difference, k as i64)
            }
            Condition::Variable(variable, relation, k) => {
                compare(
                    relation,
                    variable_value(self.values, variable) as i64,
                    k as i64,
                )
            }
        }
    }

    // Whether the condition in a place of a guard holds. Where there is none nothing is asked.
    fn place_holds(self, place: &Option<Condition>, tick: u32) -> bool
        ensures { result ≡ if_used place.now (holds self.entry.zeroed.now self.entry.values.now tick) }
    {
        // by a match: behind `is_none_or` what the call says of `self` stayed open
        match place {
            None => true,
            Some(c) => self.condition_holds(c, tick),
        }
    }

    // Whether all conditions of a guard hold.
    // place by place, here and below: `flatten` costs a quarter more
    pub fn guard_holds(self, guard: &[Option<Condition>], tick: u32) -> bool
        ensures { result ≡ guard_holds self.entry.zeroed.now self.entry.values.now tick guard.now }
    {
        guard.iter().all(|place| self.place_holds(place, tick))
    }
}

pub fn invariant_holds(invariant: &Invariant, zeroed: &[u32], tick: u32) -> bool
    ensures { result ≡ keeps zeroed.now tick invariant.now }
{
    let value = clock_value(zeroed, invariant.clock, tick);
    if invariant.strict {
        value < invariant.bound
    } else {
        value <= invariant.bound
    }
}

// Whether the invariant in a place of a group holds. Where there is none nothing is asked.
fn place_keeps(place: &Option<Invariant>, zeroed: &[u32], tick: u32) -> bool
    ensures { result ≡ if_used place.now (keeps zeroed.now tick) }
{
    place
        .as_ref()
        .is_none_or(|i| invariant_holds(i, zeroed, tick))
}

pub fn invariants_hold(invariants: &[Option<Invariant>], zeroed: &[u32], tick: u32) -> bool
    ensures { result ≡ all_keep zeroed.now tick invariants.now }
{
    invariants
        .iter()
        .all(|place| place_keeps(place, zeroed, tick))
}

// Whether a location's invariants hold. Where there is no location nothing is asked.
pub fn may_stay(location: Option<Location>, zeroed: &[u32], tick: u32) -> bool
    ensures { result ≡ may_stay_in zeroed.now tick location }
{
    location.is_none_or(|l| invariants_hold(&l.invariants, zeroed, tick))
}
