// The search for the foremost open edge and its partner.
#![tactic(auto)]

ghost use Rattle.std.specs.Prelude.{◌≡◌, false, slice_index_or};
ghost use Rattle.runs.specs.State.{automaton as automaton_of};
ghost use Rattle.runs.specs.Edges.{leaves_current as does_leave, ready as is_ready, goes_alone as does_go_alone, opposite as are_opposite, fits as does_fit};
ghost use Rattle.runs.specs.Edges.{Finds};
ghost use Rattle.search.specs.Views.{state_of, Covers, Rises};

pub mod view;

use parts::part::{Edge, Label};
use view::View;

// Whether one sends and the other receives on one channel.
pub fn opposite(a: Label, b: Label) -> bool
    ensures { result ≡ are_opposite a b }
{
    match (a, b) {
        (Label::Send(c), Label::Receive(d)) => c == d,
        (Label::Receive(c), Label::Send(d)) => c == d,
        _ => false,
    }
}

// Whether a trigger is present.
pub fn is_present(present: &[bool], trigger: u8) -> bool
    ensures { result ≡ slice_index_or present.now trigger false }
{
    present.get(trigger as usize).copied().unwrap_or(false)
}

impl View<'_> {
    // The automaton of a location. An engine has the like over its own sequence: one library call each, over other data.
    pub fn automaton(&self, location: u8) -> u8
        ensures { result ≡ automaton_of (state_of self.entry.now).plan location }
    {
        self.locations
            .get(location as usize)
            .map_or(0, |l| l.automaton)
    }

    // Whether an edge leaves the current location of its automaton.
    pub fn leaves_current(&self, edge: &Edge) -> bool
        ensures { result ≡ does_leave (state_of self.entry.now).plan (state_of self.entry.now).places edge.now }
    {
        self.places
            .get(self.automaton(edge.from) as usize)
            .is_some_and(|place| *place == edge.from)
    }

    // Whether it does, and its guard holds.
    pub fn ready(&self, edge: &Edge) -> bool
        ensures { result ≡ is_ready (state_of self.entry.now) edge.now }
    {
        self.leaves_current(edge) && self.valuation.guard_holds(&edge.guard, self.now)
    }

    // Whether a label asks for no partner and has what it asks for.
    pub fn goes_alone(&self, label: Label) -> bool
        ensures { result ≡ does_go_alone (state_of self.entry.now).present label }
    {
        match label {
            Label::Internal => true,
            Label::Trigger(x) => is_present(self.present, x),
            Label::Send(_) | Label::Receive(_) => false,
        }
    }

    // Whether an edge is a fitting partner.
    fn fits(&self, edge: &Edge, partner: &Edge) -> bool
        ensures { result ≡ does_fit (state_of self.entry.now) edge.now partner.now }
    {
        self.automaton(edge.from) != self.automaton(partner.from)
            && self.ready(partner)
            && opposite(edge.label, partner.label)
    }

    // The lowest-numbered open edge, with its lowest-numbered fitting partner where it needs one.
    // Only the candidates are looked at: numbers of edges, rising, with all that leave a current location among them.
    pub fn foremost(&self, candidates: &[u8]) -> Option<(u8, Option<u8>)>
        ensures { Rises candidates.now → Covers (state_of self.entry.now) candidates.now → Finds (state_of self.entry.now) result }
    {
        // a labelled search and no `find`: the pair is yielded by `break`, at the first edge found open
        'search: {
            for &e in candidates {
                let Some(edge) = self.edges.get(e as usize) else {
                    continue;
                };
                if !self.ready(edge) {
                    continue;
                }
                if self.goes_alone(edge.label) {
                    break 'search Some((e, None));
                }
                for &p in candidates {
                    let Some(partner) = self.edges.get(p as usize) else {
                        continue;
                    };
                    if self.fits(edge, partner) {
                        break 'search Some((e, Some(p)));
                    }
                }
            }
            None
        }
    }
}
