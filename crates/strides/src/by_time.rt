// Jobs and triggers as obstacles of a stride: each method gives the part of a stretch in front of its obstacle.
ghost use Rattle.std.specs.Prelude.{◌≡◌, ◌-◌, ◌≤◌, false};
ghost use Rattle.std.specs.List.{AllByRecursion};
ghost use Rattle.jobs.specs.Jobs.{late};
ghost use Rattle.ready_queue.specs.Waiting.{waiting};
ghost use Rattle.strides.specs.Quiet.{Outlasts};
ghost use Rattle.strides.specs.Reach.{FreePart, Reaches, ComesBehind};

use crate::stretch::Stretch;
pub use crate::stretch::lowered;
use jobs::job::Job;
use ready_queue::queue::ReadyQueue;
use sources::trigger::Trigger;

impl Stretch {
    // The first job comes to its end.
    pub fn before_first_job(self, queue: &ReadyQueue) -> Stretch
        ensures { FreePart (λ t. Outlasts (t - self.from) (waiting queue.now)) self result }
    {
        queue.first().map_or(
            self,
            |job| self.lowered(self.from.saturating_add(job.remaining.saturating_sub(1))),
        )
    }

    // A job becomes late.
    fn before_deadline(self, job: &Job) -> Stretch
        ensures { FreePart (λ t. late t job.now ≡ false) self result }
    {
        self.lowered(job.release.saturating_add(job.deadline))
    }

    // Any job that waits becomes late.
    pub fn before_deadlines(self, queue: &ReadyQueue) -> Stretch
        ensures { FreePart (λ t. AllByRecursion (λ j. late t j ≡ false) (waiting queue.now)) self result }
    {
        queue
            .as_slice()
            .iter()
            .fold(self, |part, job| part.before_deadline(job))
    }

    // A trigger comes.
    pub fn before_trigger(self, first: Option<Trigger>) -> Stretch
        ensures { FreePart (λ t. ComesBehind t first) self result }
    {
        first.map_or(self, |trigger| self.lowered(trigger.tick.saturating_sub(1)))
    }
}

// The same of any two ticks, here and below: how far the ticks behind the first are free, up to the second.
pub fn by_first_job(queue: &ReadyQueue, from: u32, reach: u32) -> u32
    ensures { from ≤ reach → Reaches (λ t. Outlasts (t - from) (waiting queue.now)) from reach result }
{
    Stretch::new(from, reach).before_first_job(queue).to
}

pub fn by_deadlines(queue: &ReadyQueue, from: u32, reach: u32) -> u32
    ensures { from ≤ reach → Reaches (λ t. AllByRecursion (λ j. late t j ≡ false) (waiting queue.now)) from reach result }
{
    Stretch::new(from, reach).before_deadlines(queue).to
}

pub fn by_trigger(first: Option<Trigger>, from: u32, reach: u32) -> u32
    ensures { from ≤ reach → Reaches (λ t. ComesBehind t first) from reach result }
{
    Stretch::new(from, reach).before_trigger(first).to
}
