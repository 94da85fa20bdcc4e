// The lines of a sequence text, each read into the part that it says.
#![tactic(auto)]

pub mod condition;
pub mod counts;
pub mod edge;
pub mod location;
pub mod present;
pub mod task;
pub mod variable;
