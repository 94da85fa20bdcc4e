// The lexical parts of sequence text: bytes, keys, tokens and faults.
#![tactic(auto)]

ghost use Rattle.std.specs.Prelude.{◌≡◌};
ghost use Rattle.lexical.specs.declared.fault.LineFault.TheVariants.{Number};
ghost use Rattle.lexical.specs.declared.fault.SequenceFault.TheVariants.{Line};

pub mod bytes;
mod display;
pub mod fault;
pub mod key;
pub mod report;
pub mod token;

use fault::{LineFault, NumberFault, SequenceFault};

impl From<NumberFault> for LineFault {
    ghost from_gives = { λ e r. r ≡ Number e };

    fn from(e: NumberFault) -> LineFault {
        LineFault::Number(e)
    }
}

impl From<LineFault> for SequenceFault {
    ghost from_gives = { λ e r. r ≡ Line e };

    fn from(e: LineFault) -> SequenceFault {
        SequenceFault::Line(e)
    }
}

// A number fault straight to the third layer, inside a line fault.
impl From<NumberFault> for SequenceFault {
    ghost from_gives = { λ e r. r ≡ Line (Number e) };

    fn from(e: NumberFault) -> SequenceFault {
        SequenceFault::Line(LineFault::Number(e))
    }
}
