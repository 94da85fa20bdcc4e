// Locations and their invariants.
ghost use Rattle.std.specs.Prelude.{◌≡◌};
ghost use Rattle.lexical.specs.declared.key.Key.TheVariants.{Loc as location_key, Inv as invariant_key};
ghost use Rattle.grammar.specs.Reading.{location_of, invariant_of};
ghost use Rattle.lines.specs.Values.{part_of, there_of};

use crate::present::Present;
use fields::text::FieldText;
use lexical::fault::SequenceFault;
use parts::part::{Invariant, Location};

// The automaton of a location and its task or none; it has no invariant yet.
pub fn location_line(value: FieldText, present: Present) -> Result<Location, SequenceFault>
    ensures { result ≡ part_of (there_of present) location_key location_of value.entry.at value.entry.bytes.now }
{
    let (x, y, _, _) = value.fields(2)?;
    let automaton = x.reference(present.scope.counts.automata as usize)?;
    let task = y.optional_reference(present.scope.tasks)?;
    Ok(Location {
        automaton,
        task,
        invariants: [None; 2],
    })
}

// The clock, whether it has to stay below the bound, and the bound.
pub fn invariant_line(value: FieldText, present: Present) -> Result<Invariant, SequenceFault>
    ensures { result ≡ part_of (there_of present) invariant_key invariant_of value.entry.at value.entry.bytes.now }
{
    let (x, y, z, _) = value.fields(3)?;
    let clock = x.reference(present.scope.counts.clocks as usize)?;
    let strict = y.strictness()?;
    let bound = z.number(0, 1000000000)?;
    Ok(Invariant {
        clock,
        strict,
        bound,
    })
}
