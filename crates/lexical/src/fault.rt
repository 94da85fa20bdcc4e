// What is wrong with a text, by layers: a number fault inside a line fault inside a sequence fault.

// A byte of the text; lines and columns count from 1.
#[derive(Clone, Copy)]
pub struct Place {
    pub line: usize,
    pub column: usize,
}

// Layer 1: a number.
#[derive(Clone, Copy)]
pub enum NumberFault {
    // not spelt as numbers are
    Misspelt(Place),
    // outside its range
    OutOfRange(Place),
}

// Layer 2: a line.
#[derive(Clone, Copy)]
pub enum LineFault {
    Number(NumberFault),
    // no `=`, no newline or no key of 1 to 8 bytes, or the text ended where a line is due
    Malformed(Place),
    // a key that is not allowed here
    KeyNotAllowed(Place),
    // too few or too many fields
    FieldCount(Place),
    // an unknown word or label letter
    UnknownWord(Place),
}

// Layer 3: the sequence.
#[derive(Clone, Copy)]
pub enum SequenceFault {
    Line(LineFault),
    // the text has more than 40,960 bytes
    TextTooLong,
    // one line of a kind too many
    TooManyLines(Place),
    // nothing has that number
    NothingThere(Place),
    // an edge between two automata, or location lines out of order
    WrongAutomaton(Place),
    // not the number of edges
    WrongEdgeCount(Place),
}

// A fault as numbers, as each refusal has them in print and for a host: its cause and layer, and its line and column, 0 and
// 0 where no place is to blame.
#[derive(Clone, Copy, PartialEq, Eq, Debug)]
pub struct Report {
    pub cause: u8,
    pub layer: u8,
    pub line: usize,
    pub column: usize,
}
