// What each event changes in an engine's inner state.
// They are for the layers above in this workspace; nothing is promised to other callers.
#![tactic(auto)]

pub mod arrival;
pub mod engine;
pub mod lowest;
pub mod plain;
pub mod release;
pub mod start;
pub mod take;
