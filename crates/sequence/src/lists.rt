ghost use Rattle.std.specs.Prelude.{◌≤◌, vec_capacity};

use parts::part::{Edge, Location, Task, Variable};

// The parts of a sequence by kind, with room for all that a sequence can hold.
#[derive(Drop)]
pub(crate) struct Lists {
    pub(crate) variables: Vec<Variable>,
    pub(crate) tasks: Vec<Task>,
    pub(crate) locations: Vec<Location>,
    pub(crate) edges: Vec<Edge>,
    ghost room: { (16 ≤ vec_capacity variables) × (16 ≤ vec_capacity tasks) × (64 ≤ vec_capacity locations) × (128 ≤ vec_capacity edges) },
}
