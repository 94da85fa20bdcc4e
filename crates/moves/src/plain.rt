// The changes of the core that keep what every run keeps.
ghost use Rattle.std.specs.Prelude.{◌≡◌, ◌<◌, [], slice_set};
ghost use Rattle.ready_queue.specs.Waiting.{waiting};
ghost use Rattle.runs.specs.State.{in_phase, stopped, with_jobs, with_triggers};
ghost use Rattle.runs.specs.Jobs.{worker};
ghost use Rattle.runs.specs.Rules.{behind, next_tick};
ghost use Rattle.machine.specs.Spent.{without_finished};
ghost use Rattle.moves.specs.State.{state};

use crate::engine::Engine;
use runs::event::Worker;

impl Engine {
    // The first job leaves, if nothing remains to it.
    pub fn remove_finished(&mut self)
        ensures { state self.new ≡ with_jobs (without_finished (waiting self.old.core.queue)) (state self.old).values (state self.old) }
    {
        self.core.remove_finished();
    }

    // The phase is over.
    pub fn leave(&mut self)
        ensures { state self.new ≡ in_phase (behind self.old.core.phase) (state self.old) }
    {
        self.core.leave();
    }

    // The run is over.
    pub fn stop(&mut self)
        ensures { state self.new ≡ stopped (state self.old) }
    {
        self.core.stop();
    }

    // The next tick begins, and the first job works.
    pub fn pass(&mut self) -> Option<Worker>
        requires { self.old.core.now < 1000000000 }
        ensures after { state self.new ≡ next_tick (state self.old) }
        ensures works { result ≡ worker (waiting self.old.core.queue) }
    {
        self.core.pass()
    }

    // A trigger of the sequence becomes present or goes.
    pub fn mark(&mut self, trigger: u8, present: bool)
        ensures { state self.new ≡ with_triggers (slice_set (state self.old).present trigger present) [] (state self.old) }
    {
        self.core.mark(trigger, present);
    }
}
