ghost use Rattle.std.specs.Prelude.{◌≡◌, length};

use ready_queue::queue::ReadyQueue;
use runs::event::Phase;
use sequence::whole::Sequence;

// The inner state of an engine, but for its order and its source.
// The rows are arrays, since nothing allocates. Of each the first places are in use: one for each automaton, clock, variable and trigger of the sequence.
#[derive(Drop)]
pub struct Core {
    pub sequence: Sequence,
    pub now: u32,
    pub phase: Phase,
    pub places: [u8; 8],
    pub zeroed: [u32; 16],
    pub values: [i16; 16],
    pub queue: ReadyQueue,
    pub next: u32,
    pub present: [bool; 16],
    pub steps: u8,
    pub ended: bool,
    ghost rows: { (length places ≡ 8) × (length zeroed ≡ 16) × (length values ≡ 16) × (length present ≡ 16) },
}
