// A fault of any layer as numbers; a lower layer's fault is reported as it is.
ghost use Rattle.std.specs.Prelude.{◌≡◌};
ghost use Rattle.lexical.specs.Faults.{place, number_report, line_report, sequence_report, reported as report_of};

use crate::fault::{LineFault, NumberFault, Place, Report, SequenceFault};

impl Place {
    // Where a line begins.
    pub fn line_start(line: usize) -> Place
        ensures { result ≡ place line 1 }
    {
        Place { line, column: 1 }
    }
}

// A cause of a layer at a place.
fn reported(cause: u8, layer: u8, at: Place) -> Report
    ensures { result ≡ report_of cause layer at }
{
    Report {
        cause,
        layer,
        line: at.line,
        column: at.column,
    }
}

// Methods, and no `From` beside them: that would say each definition a second time.
impl NumberFault {
    pub fn report(self) -> Report
        ensures { result ≡ number_report self }
    {
        match self {
            NumberFault::Misspelt(at) => reported(4, 1, at),
            NumberFault::OutOfRange(at) => reported(7, 1, at),
        }
    }
}

impl LineFault {
    pub fn report(self) -> Report
        ensures { result ≡ line_report self }
    {
        match self {
            LineFault::Number(fault) => fault.report(),
            LineFault::Malformed(at) => reported(2, 2, at),
            LineFault::KeyNotAllowed(at) => reported(3, 2, at),
            LineFault::FieldCount(at) => reported(5, 2, at),
            LineFault::UnknownWord(at) => reported(6, 2, at),
        }
    }
}

impl SequenceFault {
    pub fn report(self) -> Report
        ensures { result ≡ sequence_report self }
    {
        match self {
            SequenceFault::Line(fault) => fault.report(),
            SequenceFault::TextTooLong => reported(1, 3, Place { line: 0, column: 0 }),
            SequenceFault::TooManyLines(at) => reported(8, 3, at),
            SequenceFault::NothingThere(at) => reported(9, 3, at),
            SequenceFault::WrongAutomaton(at) => reported(10, 3, at),
            SequenceFault::WrongEdgeCount(at) => reported(11, 3, at),
        }
    }
}
