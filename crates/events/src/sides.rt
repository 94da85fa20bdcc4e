use parts::part::Edge;

// The edges of a step in the order of their effects: the sender, then the receiver.
#[derive(Clone, Copy)]
pub struct Sides {
    pub first: Edge,
    pub second: Option<Edge>,
}
