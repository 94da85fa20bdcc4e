// The events of a run, one by one: what is due, and what it changes.
// They are for the layers above in this workspace; nothing is promised to other callers.
#![tactic(auto)]

pub mod due;
pub mod perform;
pub mod sides;
pub mod step;
pub mod tell;
