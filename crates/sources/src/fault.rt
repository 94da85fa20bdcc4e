// What is said of the refusals.
ghost use Rattle.std.specs.Prelude.{Some};
ghost use Rattle.sources.specs.Faults.{table_fault_text, put_fault_text};

use super::trigger::{PutFault, TableFault};
use std::error::Error;
use std::fmt;

impl fmt::Display for TableFault {
    ghost output = { λ fault. Some (table_fault_text fault) };

    fn fmt<W: fmt::Write>(&self, f: &mut fmt::Formatter<W>) -> fmt::Result {
        f.write_str(match *self {
            TableFault::TickOver => "a tick is over 1000000000",
            TableFault::TickFalls => "a tick is smaller than the one before it",
        })
    }
}

impl Error for TableFault {}

impl fmt::Display for PutFault {
    ghost output = { λ fault. Some (put_fault_text fault) };

    fn fmt<W: fmt::Write>(&self, f: &mut fmt::Formatter<W>) -> fmt::Result {
        f.write_str(match *self {
            PutFault::TickOver => "the tick is over 1000000000",
            PutFault::Full => "the tray holds 32 triggers",
        })
    }
}

impl Error for PutFault {}
