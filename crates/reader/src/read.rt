// The lines behind the counts, one after the other.
ghost use Rattle.std.specs.Prelude.{◌≡◌, ◌≤◌, length, Ok, Err, MatchResult};
ghost use Rattle.lexical.specs.Bytes.{pieces, newline};
ghost use Rattle.sequence.specs.Model.{plan_of};
ghost use Rattle.grammar.specs.Reading.{read_lines};

use crate::line::take_line;
use crate::take::Taken;
use lexical::bytes::cut_at;
use lexical::fault::{LineFault, Place, SequenceFault};
use sequence::draft::Draft;

// Reads from line 6 on up to the last line, and answers what stands behind that.
pub(crate) fn read_lines<'a>(draft: &mut Draft, text: &'a [u8]) -> Result<&'a [u8], SequenceFault>
    requires { length text.now ≤ 40960 }
    ensures { MatchResult result (λ rest. read_lines (plan_of draft.old) 6 (pieces newline text.now) ≡ Ok (plan_of draft.new, pieces newline rest.now)) (λ fault. read_lines (plan_of draft.old) 6 (pieces newline text.now) ≡ Err fault) }
{
    let mut rest = text;
    // counted by hand: the fault behind the loop names the number of the line that is missing
    let mut number = 6usize;
    while let Some((line, more)) = cut_at(rest, b'\n') {
        match take_line(draft, number, line)? {
            Taken::Last => return Ok(more),
            Taken::More => {
                rest = more;
                number += 1;
            }
        }
    }
    Err(LineFault::Malformed(Place::line_start(number)).into())
}
