// Edges as obstacles of a stride: each method gives the part of a stretch in front of its obstacle.
// It is right up to the last tick, where no clock is zeroed later than the stretch starts. The view stays, the edge is what
// is gone over.
ghost use Rattle.std.specs.Prelude.{◌≡◌, false};
ghost use Rattle.std.specs.List.{AllByRecursion};
ghost use Rattle.runs.specs.Guards.{guard_holds};
ghost use Rattle.runs.specs.Edges.{NoneOpen};
ghost use Rattle.guards.specs.Spans.{in_span};
ghost use Rattle.search.specs.Views.{state_of};
ghost use Rattle.strides.specs.Quiet.{at_tick};
ghost use Rattle.strides.specs.Reach.{FreePart, ViewFreePart, ViewReaches, EdgeShut, could_join as joins, pairs_at};

use crate::stretch::Stretch;
use guards::span::Span;
use parts::part::Edge;
use search::opposite;
use search::view::View;

// Whether an edge could be another's partner, but for the guards: the search's `fits` with its test of the guard left out;
// one function for both would need a definition between the two.
fn could_join(view: &View, edge: &Edge, partner: &Edge) -> bool
    ensures { result ≡ joins (state_of view.entry.now) edge.now partner.now }
{
    view.automaton(edge.from) != view.automaton(partner.from)
        && view.leaves_current(partner)
        && opposite(edge.label, partner.label)
}

impl Stretch {
    // A span begins.
    fn before_span(self, span: Span) -> Stretch
        ensures { FreePart (λ t. in_span span t ≡ false) self result }
    {
        if span.low <= span.high && self.from < span.high {
            self.lowered(span.low.saturating_sub(1))
        } else {
            self
        }
    }

    // An edge's guard begins to hold.
    fn before_guard(self, view: &View, edge: &Edge) -> Stretch
        ensures { ViewFreePart view.entry.now (λ t. guard_holds view.entry.now.valuation.zeroed.now view.entry.now.valuation.values.now t edge.now.guard ≡ false) self result }
    {
        self.before_span(view.valuation.guard_span(&edge.guard))
    }

    // The guards of an edge and a partner begin to hold together.
    fn before_partner(self, view: &View, edge: &Edge, partner: &Edge) -> Stretch
        ensures { ViewFreePart view.entry.now (λ t. pairs_at (state_of view.entry.now) t edge.now partner.now ≡ false) self result }
    {
        if !could_join(view, edge, partner) {
            return self;
        }
        let own = view.valuation.guard_span(&edge.guard);
        let other = view.valuation.guard_span(&partner.guard);
        self.before_span(own.meet(other))
    }

    // An edge's guard and that of any partner begin to hold together.
    fn before_partners(self, view: &View, edge: &Edge) -> Stretch
        ensures { ViewFreePart view.entry.now (λ t. AllByRecursion (λ c. pairs_at (state_of view.entry.now) t edge.now c ≡ false) view.entry.now.edges.now) self result }
    {
        view.edges.iter().fold(
            self,
            |part, partner| part.before_partner(view, edge, partner),
        )
    }

    // An edge opens.
    fn before_edge(self, view: &View, edge: &Edge) -> Stretch
        ensures { ViewFreePart view.entry.now (λ t. EdgeShut (at_tick t (state_of view.entry.now)) edge.now) self result }
    {
        if !view.leaves_current(edge) {
            self
        } else if view.goes_alone(edge.label) {
            self.before_guard(view, edge)
        } else {
            self.before_partners(view, edge)
        }
    }

    // Any edge opens.
    pub fn before_edges(self, view: &View) -> Stretch
        ensures { ViewFreePart view.entry.now (λ t. NoneOpen (at_tick t (state_of view.entry.now))) self result }
    {
        view.edges
            .iter()
            .fold(self, |part, edge| part.before_edge(view, edge))
    }
}

// The same of the ticks behind a view's, up to any tick.
pub fn by_edges(view: &View, reach: u32) -> u32
    ensures { ViewReaches view.entry.now (λ t. NoneOpen (at_tick t (state_of view.entry.now))) reach result }
{
    Stretch::new(view.now, reach).before_edges(view).to
}
