// Strides: quiet ticks pass together.
#![tactic(auto)]

ghost use Rattle.runs.specs.State.{State};
ghost use Rattle.strides.specs.Quiet.{QuietTicksPassTogether};
ghost use Rattle.strides.specs.Strides.{Shown, Closed, StrideEnd};

pub mod by_edges;
pub mod by_invariants;
pub mod by_time;
pub mod stretch;

use parts::LAST_TICK;
use ready_queue::queue::ReadyQueue;
use search::view::View;
use sources::trigger::Trigger;
use stretch::Stretch;

// The last tick, up to `until`, to which ticks pass together from a closed one.
// A stride stops in front of the tick at which the first job is done, a job is late, a trigger comes, an edge opens or an
// invariant fails.
pub fn stride_end(view: &View, queue: &ReadyQueue, first: Option<Trigger>, until: u32) -> u32
    ensures { (s : State) → Shown view.entry.now queue.now first s → Closed s → StrideEnd s until result }
{
    let reach = until.min(LAST_TICK);
    if reach <= view.now {
        return view.now;
    }
    Stretch::new(view.now, reach)
        .before_first_job(queue)
        .before_deadlines(queue)
        .before_trigger(first)
        .before_invariants(view)
        .before_edges(view)
        .to
}

// Quiet ticks, passed together, are a strict run without lines.
pub fn quiet_ticks_pass_together()
    ensures { QuietTicksPassTogether }
{}
