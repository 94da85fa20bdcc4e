// The ready queue: the jobs that wait for the one processor, in the order in which it serves them.
#![tactic(auto)]

ghost use Rattle.std.specs.Prelude.{◌≡◌, [], length};
ghost use Rattle.std.specs.List.{slice_get};
ghost use Rattle.jobs.specs.Jobs.{job_before};
ghost use Rattle.ready_queue.specs.Waiting.{waiting, rest, serve_first, first_late};
ghost use Rattle.ready_queue.specs.Calls.{Releases, Serves, Leaves, Leads};

pub mod queue;

use jobs::Order;
use jobs::job::{Job, JobKey};
use precedence::bounded::BoundedList;
use queue::{QueueFull, ReadyQueue};

impl ReadyQueue {
    pub fn new() -> Self
        ensures { waiting result ≡ [] }
    {
        ReadyQueue {
            jobs: BoundedList::empty(Job::released(0, 0, 0, 0, 0, 0)),
        }
    }

    // How many jobs wait.
    pub fn len(&self) -> usize
        ensures { result ≡ length (waiting self.now) }
    {
        self.jobs.len()
    }

    // The jobs that wait, the first one in front.
    pub fn as_slice(&self) -> &[Job]
        ensures { result.now ≡ waiting self.now }
    {
        self.jobs.as_slice()
    }

    // The job at a place of the queue, counted from 0.
    pub fn get(&self, place: usize) -> Option<Job>
        ensures { result ≡ slice_get (waiting self.now) place }
    {
        self.jobs.get(place)
    }

    // The job that the processor serves next.
    pub fn first(&self) -> Option<Job>
        ensures value { result ≡ slice_get (waiting self.now) 0 }
        ensures leads { Leads (waiting self.now) result }
    {
        self.jobs.first()
    }

    // The first job that is past its deadline at a tick.
    pub fn first_late(&self, tick: u32) -> Option<Job>
        ensures { result ≡ first_late tick (waiting self.now) }
    {
        self.as_slice()
            .iter()
            .copied()
            .find(|job| job.is_late(tick))
    }

    // Puts a job among those that wait. Where 32 wait, it is handed back and the queue stays.
    pub fn release<O: Order>(&mut self, order: &O, job: Job) -> Result<(), QueueFull>
        ensures { Releases (job_before (O.Precedence.before order.now)) job (waiting self.old) (waiting self.new) result }
    {
        self.jobs.insert(order, job).map_err(QueueFull)
    }

    // One tick of the processor: the first job works, and is answered as it was before.
    pub fn serve(&mut self) -> Option<Job>
        ensures { Serves (waiting self.old) (waiting self.new) result }
    {
        let first = self.jobs.first()?;
        self.jobs.replace_first(first.worked())
    }

    // Takes the first job out.
    pub fn remove_first(&mut self) -> Option<Job>
        ensures { Leaves (waiting self.old) (waiting self.new) result }
    {
        self.jobs.remove_first()
    }
}
