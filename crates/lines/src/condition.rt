// The conditions of a guard.
ghost use Rattle.std.specs.Prelude.{◌≡◌};
ghost use Rattle.lexical.specs.declared.key.Key.TheVariants.{Clk as clock_key, Dif as difference_key, Val as value_key};
ghost use Rattle.grammar.specs.Reading.{clock_condition, difference_condition, variable_condition};
ghost use Rattle.lines.specs.Values.{part_of, there_of};

use crate::present::Present;
use fields::text::FieldText;
use lexical::fault::SequenceFault;
use parts::part::Condition;

// A clock against a constant.
pub fn clock_line(value: FieldText, present: Present) -> Result<Condition, SequenceFault>
    ensures { result ≡ part_of (there_of present) clock_key clock_condition value.entry.at value.entry.bytes.now }
{
    let (x, y, z, _) = value.fields(3)?;
    let clock = x.reference(present.scope.counts.clocks as usize)?;
    let relation = y.relation()?;
    let constant = z.number(0, 1000000000)?;
    Ok(Condition::Clock(clock, relation, constant))
}

// The difference of two clocks against a constant.
pub fn difference_line(value: FieldText, present: Present) -> Result<Condition, SequenceFault>
    ensures { result ≡ part_of (there_of present) difference_key difference_condition value.entry.at value.entry.bytes.now }
{
    let (x, y, z, w) = value.fields(4)?;
    let first = x.reference(present.scope.counts.clocks as usize)?;
    let second = y.reference(present.scope.counts.clocks as usize)?;
    let relation = z.relation()?;
    let constant = w.number(-1000000000, 1000000000)?;
    Ok(Condition::Difference(first, second, relation, constant))
}

// A variable against a constant.
pub fn value_line(value: FieldText, present: Present) -> Result<Condition, SequenceFault>
    ensures { result ≡ part_of (there_of present) value_key variable_condition value.entry.at value.entry.bytes.now }
{
    let (x, y, z, _) = value.fields(3)?;
    let variable = x.reference(present.scope.variables)?;
    let relation = y.relation()?;
    let constant = z.number(-32768, 32767)?;
    Ok(Condition::Variable(variable, relation, constant))
}
