// One release of a task. Its cost, deadline and priority are the task's at the release and stay with the job.
#[derive(Clone, Copy, PartialEq, Eq, Debug)]
pub struct Job {
    // from 0, in the order of release
    pub number: u32,
    pub task: u8,
    // C: how many ticks of the processor it needs
    pub cost: u32,
    // D: within how many ticks of its release it has to be done
    pub deadline: u32,
    // P: the greater, the more urgent
    pub priority: u8,
    // the tick of its release
    pub release: u32,
    // the ticks of the processor that it still needs
    pub remaining: u32,
    // whether it has worked at all
    pub started: bool,
}

// What an order may read of a job: not the task, not the cost, not the ticks that remain.
#[derive(Clone, Copy)]
pub struct JobKey {
    pub number: u32,
    pub priority: u8,
    pub deadline: u32,
    pub release: u32,
    pub started: bool,
}

// The orders that have a word of their own in the formats.
#[derive(Clone, Copy, PartialEq, Eq, Debug)]
pub enum OrderName {
    Fp,
    Ed,
    Fc,
}

// A word that names no order.
#[derive(Clone, Copy, PartialEq, Eq, Debug)]
pub struct UnknownOrder;

// A named order, with or without hold over it.
#[derive(Clone, Copy)]
pub struct Policy {
    pub name: OrderName,
    pub hold: bool,
}
