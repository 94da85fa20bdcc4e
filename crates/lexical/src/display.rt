// How a report is printed.
ghost use Rattle.std.specs.Prelude.{Some};
ghost use Rattle.lexical.specs.Shown.{report_text};

use crate::fault::Report;
use std::fmt;

impl fmt::Display for Report {
    ghost output = { λ r. Some (report_text r) };

    fn fmt<W: fmt::Write>(&self, f: &mut fmt::Formatter<W>) -> fmt::Result {
        let Report {
            cause,
            layer,
            line,
            column,
        } = *self;
        write!(f, "refused={cause},{layer},{line},{column}")
    }
}
