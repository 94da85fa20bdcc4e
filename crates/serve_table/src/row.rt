// A line of the release table: one job, with the tick of its release.
#[derive(Clone, Copy)]
pub struct Row {
    pub release: u32,
    pub cost: u32,
    pub deadline: u32,
    pub priority: u8,
}

// Why a line of the input cannot be used.
#[derive(Clone, Copy)]
pub enum Fault {
    Order,
    Hold,
    Fields,
    Number,
    Release,
    Cost,
    Deadline,
    Priority,
    Falls,
}
