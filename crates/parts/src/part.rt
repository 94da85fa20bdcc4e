// The parts of a sequence. Each kind is numbered from 0, and named by its number as in the text and the log.
// Groups are arrays of options: fixed memory, and callers write them as literals.

// How a value is compared with a constant: <, <=, =, >= or >.
#[derive(Clone, Copy)]
pub enum Relation {
    Lt,
    Le,
    Eq,
    Ge,
    Gt,
}

// Compares a clock, the signed difference of two clocks (the first less the second), or a variable with a constant.
#[derive(Clone, Copy)]
pub enum Condition {
    Clock(u8, Relation, u32),
    Difference(u8, u8, Relation, i32),
    Variable(u8, Relation, i16),
}

// Sets a variable to a constant, or to another variable plus a constant.
#[derive(Clone, Copy)]
pub struct Assignment {
    pub target: u8,
    pub source: Option<u8>,
    pub constant: i16,
}

// A clock that an edge zeroes.
#[derive(Clone, Copy)]
pub struct Reset {
    pub clock: u8,
}

// A clock has to stay below a bound (strict) or at most at it.
#[derive(Clone, Copy)]
pub struct Invariant {
    pub clock: u8,
    // a flag: only < and <= may stand here
    pub strict: bool,
    pub bound: u32,
}

// A variable never leaves low to high.
#[derive(Clone, Copy)]
pub struct Variable {
    pub low: i16,
    pub high: i16,
    pub start: i16,
}

// The work that a location releases: C, D and P, and what it assigns when a job of it is done.
#[derive(Clone, Copy)]
pub struct Task {
    pub cost: u32,
    pub deadline: u32,
    pub priority: u8,
    pub assignments: [Option<Assignment>; 4],
}

#[derive(Clone, Copy)]
pub struct Location {
    pub automaton: u8,
    pub task: Option<u8>,
    pub invariants: [Option<Invariant>; 2],
}

// What an edge waits for beside its guard. An internal edge waits for nothing.
#[derive(Clone, Copy)]
pub enum Label {
    Internal,
    Trigger(u8),
    Send(u8),
    Receive(u8),
}

// An edge of one automaton. Of each group the first places are in use, in their order.
#[derive(Clone, Copy)]
pub struct Edge {
    pub from: u8,
    pub to: u8,
    pub label: Label,
    pub guard: [Option<Condition>; 4],
    pub resets: [Option<Reset>; 4],
    pub assignments: [Option<Assignment>; 4],
}

// How many there are of what a sequence only counts.
#[derive(Clone, Copy)]
pub struct Counts {
    pub automata: u8,
    pub clocks: u8,
    pub triggers: u8,
    pub channels: u8,
}

// How many there are of all that a part may refer to by number, but for locations.
#[derive(Clone, Copy)]
pub struct Scope {
    pub counts: Counts,
    pub variables: usize,
    pub tasks: usize,
}

// The rule that a refused part breaks.
#[derive(Clone, Copy, PartialEq, Eq, Debug)]
pub enum Rule {
    // 1 to 8 automata, at most 16 clocks, 16 triggers and 8 channels
    BadCounts,
    // variables come before tasks, tasks before locations, locations before edges
    OutOfTurn,
    // at most 16 variables, 16 tasks, 64 locations and 128 edges
    TooMany,
    // low <= start <= high
    BadVariable,
    // 1 <= C <= D <= 1,000,000, and assignments among variables that are there
    BadTask,
    // a task that is there, and invariants on clocks that are there, bounds up to 1,000,000,000
    BadLocation,
    // locations go automaton by automaton from 0, none left out
    BadAutomaton,
    // from and to are locations of one automaton
    BadEnds,
    // label, guard, resets and assignments refer to what is there, constants in range
    BadEdge,
}
