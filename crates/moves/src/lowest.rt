// The lowest present trigger, and the lowest automaton that must not stay.
ghost use Rattle.std.specs.Prelude.{◌≡◌, ◌≤◌, length};
ghost use Rattle.runs.specs.Rules.{may_stay};
ghost use Rattle.moves.specs.State.{state};
ghost use Rattle.moves.specs.Lowest.{LowestPresent, LowestStuck};

use crate::engine::Engine;
use guards::at_tick::may_stay;
use parts::item;
use search::is_present;

impl Engine {
    // The lowest present trigger, or none.
    pub fn lowest_present(&self) -> Option<u8>
        ensures { LowestPresent (state self.now).present result }
    {
        let present = self.core.present();
        (0..self.core.sequence.counts().triggers).find(|x| is_present(present, *x))
    }

    // Whether an automaton may be at its location at a tick.
    fn may_be_at(&self, automaton: u8, tick: u32) -> bool
        ensures { result ≡ may_stay (state self.now) tick automaton }
    {
        item(self.core.places(), automaton as usize).is_none_or(|place| may_stay(
            self.core.sequence.location(place),
            self.core.zeroed(),
            tick,
        ))
    }

    // The lowest automaton whose location's invariants fail at the next tick, or none.
    pub fn stuck(&self) -> Option<u8>
        ensures { LowestStuck (state self.now) result }
    {
        let tick = self.core.now + 1;
        (0..self.core.sequence.counts().automata).find(|a| !self.may_be_at(*a, tick))
    }
}
