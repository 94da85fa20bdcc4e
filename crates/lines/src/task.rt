// Tasks.
ghost use Rattle.std.specs.Prelude.{◌≡◌};
ghost use Rattle.lexical.specs.declared.key.Key.TheVariants.{Task as task_key};
ghost use Rattle.grammar.specs.Lines.{nothing_there};
ghost use Rattle.grammar.specs.Reading.{task_of};
ghost use Rattle.lines.specs.Values.{part_of};

use fields::text::FieldText;
use lexical::fault::SequenceFault;
use parts::part::Task;

// C, D and P of a task, which assigns nothing yet.
pub fn task_line(value: FieldText) -> Result<Task, SequenceFault>
    ensures { result ≡ part_of nothing_there task_key task_of value.entry.at value.entry.bytes.now }
{
    let (x, y, z, _) = value.fields(3)?;
    let cost = x.number(1, 1000000)?;
    let deadline = y.number(cost, 1000000)?;
    let priority = z.number(0, 255)?;
    Ok(Task {
        cost,
        deadline,
        priority,
        assignments: [None; 4],
    })
}
