// Variables and assignments.
ghost use Rattle.std.specs.Prelude.{◌≡◌};
ghost use Rattle.lexical.specs.declared.key.Key.TheVariants.{Var as var_key, Set as set_key};
ghost use Rattle.grammar.specs.Lines.{nothing_there};
ghost use Rattle.grammar.specs.Reading.{variable_of, assignment_of};
ghost use Rattle.lines.specs.Values.{part_of, there_of};

use crate::present::Present;
use fields::text::FieldText;
use lexical::fault::SequenceFault;
use parts::part::{Assignment, Variable};

// Low, high and start of a variable.
pub fn variable_line(value: FieldText) -> Result<Variable, SequenceFault>
    ensures { result ≡ part_of nothing_there var_key variable_of value.entry.at value.entry.bytes.now }
{
    let (x, y, z, _) = value.fields(3)?;
    let low = x.number(-32768, 32767)?;
    let high = y.number(low, 32767)?;
    let start = z.number(low, high)?;
    Ok(Variable { low, high, start })
}

// The variable that is set, the one that it takes or none, and the constant.
pub fn assignment_line(value: FieldText, present: Present) -> Result<Assignment, SequenceFault>
    ensures { result ≡ part_of (there_of present) set_key assignment_of value.entry.at value.entry.bytes.now }
{
    let (x, y, z, _) = value.fields(3)?;
    let target = x.reference(present.scope.variables)?;
    let source = y.optional_reference(present.scope.variables)?;
    let constant = z.number(-32768, 32767)?;
    Ok(Assignment {
        target,
        source,
        constant,
    })
}
