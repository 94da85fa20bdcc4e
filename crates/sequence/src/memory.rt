ghost use Rattle.sequence.specs.Listed.{Empty};

use super::lists::Lists;

// All the memory that a sequence can ever need, with nothing in it.
#[derive(Drop)]
pub struct Memory {
    pub(crate) lists: Lists,
    ghost empty: { Empty lists },
}
