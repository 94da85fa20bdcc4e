// Releasing the task of a location.
ghost use Rattle.std.specs.Prelude.{◌≡◌, ◌+◌, ◌≤◌, length};
ghost use Rattle.std.specs.List.{slice_get};
ghost use Rattle.runs.specs.Jobs.{task_in};
ghost use Rattle.moves.specs.State.{state};
ghost use Rattle.moves.specs.Changes.{location_released, releases_at};

use crate::engine::Engine;
use jobs::Order;
use jobs::job::Job;

impl Engine {
    // The number of a location's task.
    fn task_number(&self, location: u8) -> Option<u8>
        ensures { result ≡ task_in (slice_get (state self.now).plan.locations location) }
    {
        self.core.sequence.location(location).and_then(|l| l.task)
    }

    // How many jobs come with a location: one where it has a task.
    pub fn releases(&self, location: u8) -> usize
        ensures { result ≡ releases_at (state self.now).plan location }
    {
        self.task_number(location)
            .and_then(|number| self.core.sequence.task(number))
            .map_or(0, |_| 1)
    }

    // The task of a location is released, where there is room.
    pub fn release<O: Order>(&mut self, order: &O, location: u8)
        ensures { length (state self.old).waiting + releases_at (state self.old).plan location ≤ 32 → state self.new ≡ location_released (O.Precedence.before order.now) location (state self.old) }
    {
        // number and task are both needed: a chain would make a pair and take it apart
        let Some(number) = self.task_number(location) else {
            return;
        };
        let Some(task) = self.core.sequence.task(number) else {
            return;
        };
        let job = Job::released(
            self.core.next,
            number,
            task.cost,
            task.deadline,
            task.priority,
            self.core.now,
        );
        // `if let`, since what a taken job says of the queue is needed below
        if let Ok(()) = self.core.queue.release(order, job) {
            self.core.next += 1;
        }
    }
}
