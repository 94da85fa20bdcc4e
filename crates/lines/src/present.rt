// How many there are of what a line may refer to. It stands beside the value, which is new with each line; this is the
// draft's.
use parts::part::Scope;

#[derive(Clone, Copy)]
pub struct Present {
    pub scope: Scope,
    pub locations: usize,
}
