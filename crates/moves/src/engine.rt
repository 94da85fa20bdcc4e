ghost use Rattle.std.specs.Prelude.{ℕ, ◌+◌, ◌≤◌, [], length, slice_index};
ghost use Rattle.ready_queue.specs.Waiting.{waiting};
ghost use Rattle.machine.specs.Model.{model};
ghost use Rattle.machine.specs.Spent.{spent};

use machine::engine_core::Core;

// The inner state of an engine with what every run keeps of it: the tick, the numbers of jobs and the zeroings are bounded.
#[derive(Drop)]
pub struct Engine {
    pub core: Core,
    ghost time: { core.now ≤ 1000000000 },
    // a number for each tick and each waiting job, but for those with nothing remaining
    ghost numbered: { core.next + spent (waiting core.queue) ≤ core.now + length (waiting core.queue) },
    // no clock was zeroed later than now
    ghost past: { (c : ℕ) → slice_index (model [] core).zeroed c ≤ core.now },
}
