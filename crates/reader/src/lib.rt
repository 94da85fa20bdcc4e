// Reading sequence text into memory that the caller lends.
#![tactic(auto)]

ghost use Rattle.std.specs.Result.{MatchResult};
ghost use Rattle.sequence.specs.Whole.{plan};
ghost use Rattle.reader.specs.Outcomes.{Reads, Refuses};

mod line;
mod read;
mod stages;
mod take;

use lexical::fault::SequenceFault;
use lines::counts::read_counts;
use read::read_lines;
use sequence::draft::Draft;
use sequence::memory::Memory;
use sequence::whole::Sequence;

// The most bytes that a text may have.
const LONGEST_TEXT: usize = 40_960;

// A text that is refused: its first fault, and the memory again.
#[derive(Drop)]
pub struct Refusal {
    pub fault: SequenceFault,
    pub memory: Memory,
}

// Reads the sequence that a text begins with, and answers it with what stands behind it.
pub fn read_sequence<'a>(memory: Memory, text: &'a [u8]) -> Result<(Sequence, &'a [u8]), Refusal>
    ensures { MatchResult result (λ p. Reads text.now (plan p.0) p.1.now) (λ e. Refuses text.now e.fault e.memory) }
{
    if text.len() > LONGEST_TEXT {
        return Err(Refusal {
            fault: SequenceFault::TextTooLong,
            memory,
        });
    }
    // not by map_err, here and below: its closure would take the memory, which is needed further on
    let (counts, lines) = match read_counts(text) {
        Ok(read) => read,
        Err(fault) => return Err(Refusal { fault, memory }),
    };
    // counts that were read break no limit
    let mut draft = Draft::begin(memory, counts).unwrap();
    let rest = match read_lines(&mut draft, lines) {
        Ok(rest) => rest,
        Err(fault) => {
            return Err(Refusal {
                fault,
                memory: draft.into_memory(),
            });
        }
    };
    // the last line is allowed only once every automaton has a location
    Ok((draft.finish().unwrap(), rest))
}
