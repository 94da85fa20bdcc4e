use jobs::job::Job;
use precedence::bounded::BoundedList;

// The jobs that wait for the processor, at most 32.
#[derive(Clone, Copy)]
pub struct ReadyQueue {
    pub(crate) jobs: BoundedList<Job, 32>,
}

// The answer to a release while 32 jobs wait: the job that found no place.
#[derive(Clone, Copy)]
pub struct QueueFull(pub Job);
