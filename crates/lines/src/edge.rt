// Edges, the clocks that they zero, and how many edges there are.
ghost use Rattle.std.specs.Prelude.{◌≡◌};
ghost use Rattle.lexical.specs.declared.key.Key.TheVariants.{Edge as edge_key, Zero as zero_key, Edges as edges_key};
ghost use Rattle.grammar.specs.Lines.{nothing_there};
ghost use Rattle.grammar.specs.Reading.{edge_of};
ghost use Rattle.lines.specs.Values.{part_of, there_of, reset_of, edge_count_of};

use crate::present::Present;
use fields::split::one_field;
use fields::text::FieldText;
use lexical::fault::{Place, SequenceFault};
use parts::part::{Edge, Reset};

// From, to and label of an edge, which has no guard, zeroes no clock and assigns nothing yet.
pub fn edge_line(value: FieldText, present: Present) -> Result<Edge, SequenceFault>
    ensures { result ≡ part_of (there_of present) edge_key edge_of value.entry.at value.entry.bytes.now }
{
    let (x, y, z, _) = value.fields(3)?;
    let from = x.reference(present.locations)?;
    let to = y.reference(present.locations)?;
    let label = z.label(present.scope.counts.triggers, present.scope.counts.channels)?;
    Ok(Edge {
        from,
        to,
        label,
        guard: [None; 4],
        resets: [None; 4],
        assignments: [None; 4],
    })
}

// A clock that is zeroed. Bytes and place stand apart, here and below: one field asks nothing of its column.
pub fn reset_line(value: &[u8], at: Place, present: Present) -> Result<Reset, SequenceFault>
    ensures { result ≡ part_of (there_of present) zero_key reset_of at value.now }
{
    let x = one_field(value, at)?;
    let clock = x.reference(present.scope.counts.clocks as usize)?;
    Ok(Reset { clock })
}

// How many edges there are.
pub fn edge_count_line(value: &[u8], at: Place) -> Result<u32, SequenceFault>
    ensures { result ≡ part_of nothing_there edges_key edge_count_of at value.now }
{
    let x = one_field(value, at)?;
    Ok(x.number(0, 128)?)
}
