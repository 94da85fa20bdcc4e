// The rows of a sequence that runs: what assignments make of its variables, with roll-back, and what a taken edge changes
// in the clocks, the places and the triggers. All of it is inner, for the engine above; nothing allocates.
#![tactic(auto)]

pub mod assign;
pub mod fault;
pub mod step;
pub mod take;
