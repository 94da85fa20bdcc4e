use guards::valuation::Valuation;
use parts::part::{Edge, Location};

// What decides which edges are open: the sequence's edges and locations, and the state at a tick.
#[derive(Clone, Copy)]
pub struct View<'a> {
    pub edges: &'a [Edge],
    pub locations: &'a [Location],
    pub places: &'a [u8],
    pub valuation: Valuation<'a>,
    pub present: &'a [bool],
    pub now: u32,
}
