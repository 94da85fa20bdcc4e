// Invariants as obstacles of a stride: each method gives the part of a stretch in front of its obstacle.
ghost use Rattle.std.specs.Prelude.{◌≡◌, ℕ, ◌≤◌, true};
ghost use Rattle.std.specs.List.{slice_get};
ghost use Rattle.runs.specs.Guards.{if_used, keeps, all_keep, may_stay_in};
ghost use Rattle.runs.specs.Rules.{may_stay};
ghost use Rattle.search.specs.Views.{state_of};
ghost use Rattle.strides.specs.Reach.{FreePart, Reaches};

use crate::stretch::Stretch;
use guards::at_tick::last_zeroing;
use parts::part::Invariant;
use search::view::View;

impl Stretch {
    // An invariant fails.
    fn before_invariant(self, invariant: &Invariant, zeroed: &[u32]) -> Stretch
        ensures { FreePart (λ t. keeps zeroed.now t invariant.now ≡ true) self result }
    {
        let start = last_zeroing(zeroed, invariant.clock);
        if !invariant.strict {
            self.lowered(start.saturating_add(invariant.bound))
        } else if invariant.bound > 0 {
            self.lowered(start.saturating_add(invariant.bound - 1))
        } else {
            self.lowered(self.from)
        }
    }

    // The invariant in a place of a group fails. Where there is none nothing is asked.
    fn before_place(self, place: &Option<Invariant>, zeroed: &[u32]) -> Stretch
        ensures { FreePart (λ t. if_used place.now (keeps zeroed.now t) ≡ true) self result }
    {
        match place {
            None => self,
            Some(i) => self.before_invariant(i, zeroed),
        }
    }

    // An invariant of a group fails.
    fn before_group(self, invariants: &[Option<Invariant>], zeroed: &[u32]) -> Stretch
        ensures { FreePart (λ t. all_keep zeroed.now t invariants.now ≡ true) self result }
    {
        invariants
            .iter()
            .fold(self, |part, place| part.before_place(place, zeroed))
    }

    // The location at a place may no longer be kept. Where there is no location nothing is asked.
    fn before_location(self, view: &View, place: u8) -> Stretch
        ensures { FreePart (λ t. may_stay_in view.entry.now.valuation.zeroed.now t (slice_get view.entry.now.locations.now place) ≡ true) self result }
    {
        view.locations.get(place as usize).map_or(
            self,
            |l| self.before_group(&l.invariants, view.valuation.zeroed),
        )
    }

    // A current location may no longer be kept.
    pub fn before_invariants(self, view: &View) -> Stretch
        ensures { FreePart (λ t. (a : ℕ) → may_stay (state_of view.entry.now) t a ≡ true) self result }
    {
        view.places
            .iter()
            .fold(self, |part, place| part.before_location(view, *place))
    }
}

// The same of the ticks behind a view's, up to any tick.
pub fn by_invariants(view: &View, reach: u32) -> u32
    ensures { view.entry.now.now ≤ reach → Reaches (λ t. (a : ℕ) → may_stay (state_of view.entry.now) t a ≡ true) view.entry.now.now reach result }
{
    Stretch::new(view.now, reach).before_invariants(view).to
}
