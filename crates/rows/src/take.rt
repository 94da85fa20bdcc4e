// What a taken edge changes beside the variables: it resets clocks, moves its automaton and takes its trigger.
ghost use Rattle.std.specs.Prelude.{◌≡◌, slice_set};
ghost use Rattle.runs.specs.Edges.{reset_one, reset_all, take_trigger};

use parts::part::{Label, Reset};
use parts::set_item;

// Zeroes one clock at a tick; none changes nothing.
fn reset_one(zeroed: &mut [u32], reset: Option<Reset>, tick: u32)
    ensures { zeroed.new ≡ reset_one tick reset zeroed.old }
{
    if let Some(r) = reset {
        set_item(zeroed, r.clock as usize, tick);
    }
}

// Zeroes the clocks of a group at a tick.
pub fn reset_all(zeroed: &mut [u32], resets: &[Option<Reset>], tick: u32)
    ensures { zeroed.new ≡ reset_all tick resets.now zeroed.old }
{
    // place by place: over `flatten` it stayed open what the loop has zeroed so far
    for reset in resets {
        reset_one(zeroed, *reset, tick);
    }
}

// Moves an automaton to a location.
pub fn move_to(places: &mut [u8], automaton: u8, to: u8)
    ensures { places.new ≡ slice_set places.old automaton to }
{
    set_item(places, automaton as usize, to);
}

// Takes the trigger that an edge waits for.
pub fn take_trigger(present: &mut [bool], label: Label)
    ensures { present.new ≡ take_trigger label present.old }
{
    if let Label::Trigger(x) = label {
        set_item(present, x as usize, false);
    }
}
