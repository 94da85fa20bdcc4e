// What the value of a line does to a draft, by the kind of the line.
ghost use Rattle.std.specs.Prelude.{◌≡◌};
ghost use Rattle.lexical.specs.declared.key.Key.TheVariants as kind;
ghost use Rattle.sequence.specs.Model.{plan_of, Adds};
ghost use Rattle.grammar.specs.Lines.{there};
ghost use Rattle.lines.specs.Values.{there_of};
ghost use Rattle.reader.specs.Taking.{TakesValue, add_assignment, placed};

use fields::text::FieldText;
use lexical::fault::{LineFault, Place, SequenceFault};
use lexical::key::Key;
use lines::condition::{clock_line, difference_line, value_line};
use lines::edge::{edge_count_line, edge_line, reset_line};
use lines::location::{invariant_line, location_line};
use lines::present::Present;
use lines::task::task_line;
use lines::variable::{assignment_line, variable_line};
use parts::part::{Assignment, Rule};
use sequence::draft::Draft;

// A line was taken: more lines follow, or it was the last. Not `ControlFlow`: as short, and the names say what follows.
#[derive(Clone, Copy)]
pub(crate) enum Taken {
    More,
    Last,
}

// How many there are of what a line may refer to.
fn present(draft: &Draft) -> Present
    ensures { there_of result ≡ there (plan_of draft.now) }
{
    Present {
        scope: draft.scope(),
        locations: draft.locations().len(),
    }
}

// The part of a line that was read can break no rule but that of its automaton.
fn placed(answer: Result<(), Rule>, at: Place) -> Result<Taken, SequenceFault>
    ensures { result ≡ placed at answer }
{
    answer
        .map(|()| Taken::More)
        .map_err(|_| SequenceFault::WrongAutomaton(at))
}

// An assignment goes to the last task, or to the last edge where there is one.
fn add_assignment(draft: &mut Draft, assignment: Assignment) -> Result<(), Rule>
    ensures { Adds (add_assignment (plan_of draft.old) assignment) (plan_of draft.old) (plan_of draft.new) result }
{
    if draft.edges().is_empty() {
        draft.add_task_assignment(assignment)
    } else {
        draft.add_edge_assignment(assignment)
    }
}

// The last line says how many edges there are.
fn take_edge_count(draft: &Draft, value: FieldText) -> Result<Taken, SequenceFault>
    ensures { TakesValue kind.Edges (plan_of draft.now) value.entry.at value.entry.bytes.now (plan_of draft.now) result }
{
    let count = edge_count_line(value.bytes, value.at)?;
    if count as usize != draft.edges().len() {
        return Err(SequenceFault::WrongEdgeCount(value.at));
    }
    Ok(Taken::Last)
}

// The value of a line of a kind.
pub(crate) fn take_value(
    draft: &mut Draft,
    key: Key,
    value: FieldText,
) -> Result<Taken, SequenceFault>
    ensures { TakesValue key (plan_of draft.old) value.entry.at value.entry.bytes.now (plan_of draft.new) result }
{
    let present = present(draft);
    // a match, and no table of functions: each key reads and adds a part of its own type
    let added = match key {
        // never allowed behind the counts
        Key::Form | Key::Autos | Key::Clocks | Key::Triggers | Key::Chans => {
            return Err(LineFault::KeyNotAllowed(value.at).into());
        }
        Key::Var => draft.add_variable(variable_line(value)?),
        Key::Task => draft.add_task(task_line(value)?),
        Key::Set => add_assignment(draft, assignment_line(value, present)?),
        Key::Loc => draft.add_location(location_line(value, present)?),
        Key::Inv => draft.add_invariant(invariant_line(value, present)?),
        Key::Edge => draft.add_edge(edge_line(value, present)?),
        Key::Clk => draft.add_condition(clock_line(value, present)?),
        Key::Dif => draft.add_condition(difference_line(value, present)?),
        Key::Val => draft.add_condition(value_line(value, present)?),
        Key::Zero => draft.add_reset(reset_line(value.bytes, value.at, present)?),
        Key::Edges => return take_edge_count(draft, value),
    };
    placed(added, value.at)
}
