// When guards and invariants hold: at a tick, and over the ticks to come.
#![tactic(auto)]

pub mod at_tick;
pub mod over_ticks;
pub mod span;
pub mod valuation;
