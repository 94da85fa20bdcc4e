// One line behind the counts: key, room, fields and what they do, in this order.
ghost use Rattle.sequence.specs.Model.{plan_of};
ghost use Rattle.grammar.specs.Reading.{take_line};
ghost use Rattle.reader.specs.Taking.{Takes};

use crate::stages::{has_room, is_allowed, stage};
use crate::take::{Taken, take_value};
use lexical::fault::{LineFault, Place, SequenceFault};
use lexical::key::key_named;
use lines::counts::key_and_value;
use sequence::draft::Draft;

// A line.
pub(crate) fn take_line(
    draft: &mut Draft,
    number: usize,
    line: &[u8],
) -> Result<Taken, SequenceFault>
    ensures { Takes (take_line (plan_of draft.old) number line.now) (plan_of draft.old) (plan_of draft.new) result }
{
    let (key, value) = key_and_value(line, number)?;
    let at = Place::line_start(number);
    let kind = key_named(key.bytes()).ok_or(LineFault::KeyNotAllowed(at))?;
    if !is_allowed(kind, stage(draft), draft.is_complete()) {
        return Err(LineFault::KeyNotAllowed(at).into());
    }
    if !has_room(draft, kind) {
        return Err(SequenceFault::TooManyLines(at));
    }
    take_value(draft, kind, value)
}
