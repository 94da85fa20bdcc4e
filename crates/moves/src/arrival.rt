// Triggers come.
ghost use Rattle.std.specs.Prelude.{◌≡◌};
ghost use Rattle.moves.specs.State.{state};
ghost use Rattle.moves.specs.Arrivals.{TakesDue, is_new, Arrived};

use crate::engine::Engine;
use search::is_present;
use sources::Source;
use sources::trigger::Trigger;

// Takes the first trigger from a source if it is of this tick. What is due asks the same filter of a trigger at hand;
// shared, it would be a public call for one line.
pub fn take_due<S: Source>(source: &mut S, tick: u32) -> Option<Trigger>
    ensures { TakesDue tick (S.Source.list source.old) (S.Source.list source.new) result }
{
    let trigger = source.next().filter(|t| t.tick == tick)?;
    source.remove();
    Some(trigger)
}

impl Engine {
    // Whether a trigger that comes would become present: it is known and absent.
    pub fn accepts(&self, trigger: u8) -> bool
        ensures { result ≡ is_new (state self.now).present trigger }
    {
        trigger < self.core.sequence.counts().triggers && !is_present(self.core.present(), trigger)
    }

    // A trigger comes: whether it becomes present. One that is unknown or already present does not: a flag,
    // since both answers are events and neither a refusal.
    pub fn arrive(&mut self, trigger: u8) -> bool
        ensures { Arrived trigger (state self.old) (state self.new) result }
    {
        if !self.accepts(trigger) {
            return false;
        }
        self.mark(trigger, true);
        true
    }
}
