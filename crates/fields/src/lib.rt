// The value of a line in fields, and what the fields say.
#![tactic(auto)]

pub mod field;
mod number;
pub mod numeral;
pub mod split;
pub mod text;
