// How far the lines of a sequence text have come behind the counts: which part was begun last, and of an edge, which group.
// The stages are ordered as their lines follow each other.
#[derive(Clone, Copy, PartialEq, Eq, PartialOrd, Ord)]
pub enum Stage {
    Variables,
    Tasks,
    Locations,
    // an edge with no clocks to zero and no assignments yet
    Guard,
    // an edge with clocks to zero and no assignments yet
    Resets,
    // an edge with assignments
    Assignments,
}
