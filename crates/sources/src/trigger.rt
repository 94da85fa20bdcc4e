// An outside event at a tick.
#[derive(Clone, Copy, PartialEq, Eq, Debug)]
pub struct Trigger {
    // 0 to 1,000,000,000
    pub tick: u32,
    pub number: u8,
}

// The key that a tray keeps its triggers in order by.
#[derive(Clone, Copy)]
pub struct Tick(pub u32);

// Why records make no table.
#[derive(Clone, Copy, PartialEq, Eq, Debug)]
pub enum TableFault {
    // a tick is over 1,000,000,000
    TickOver = 13,
    // a tick is smaller than the one before it
    TickFalls = 14,
}

// Why a trigger is not put into a tray.
#[derive(Clone, Copy, PartialEq, Eq, Debug)]
pub enum PutFault {
    // its tick is over 1,000,000,000
    TickOver = 13,
    // the tray holds 32 triggers
    Full = 18,
}
