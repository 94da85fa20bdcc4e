// Which lines may follow what was read so far, and which have room.
ghost use Rattle.std.specs.Prelude.{◌≡◌};
ghost use Rattle.sequence.specs.Model.{plan_of};
ghost use Rattle.grammar.specs.Reading.{edge_stage, stage_of, stage_rank, allowed_at, set_room, room};

use grammar::stage::Stage;
use lexical::key::Key;
use parts::part::Edge;
use sequence::draft::Draft;
use sequence::group::{self, last, used_places};

// How far the lines of the last edge have come.
fn edge_stage(edge: Option<Edge>) -> Stage
    ensures { result ≡ edge_stage edge }
{
    match &edge {
        Some(edge) if used_places(&edge.assignments) != 0 => Stage::Assignments,
        Some(edge) if used_places(&edge.resets) != 0 => Stage::Resets,
        _ => Stage::Guard,
    }
}

// How far the lines have come.
pub(crate) fn stage(draft: &Draft) -> Stage
    ensures { result ≡ stage_of (plan_of draft.now) }
{
    if !draft.edges().is_empty() {
        edge_stage(last(draft.edges()))
    } else if !draft.locations().is_empty() {
        Stage::Locations
    } else if !draft.tasks().is_empty() {
        Stage::Tasks
    } else {
        Stage::Variables
    }
}

// Whether a key may follow at a stage; edges need that every automaton has a location.
pub(crate) fn is_allowed(key: Key, stage: Stage, whole: bool) -> bool
    ensures { result ≡ allowed_at key (stage_rank stage) whole }
{
    match key {
        Key::Form | Key::Autos | Key::Clocks | Key::Triggers | Key::Chans => false,
        Key::Var => stage == Stage::Variables,
        Key::Task => stage <= Stage::Tasks,
        Key::Set => stage == Stage::Tasks || stage >= Stage::Guard,
        Key::Loc => stage <= Stage::Locations,
        Key::Inv => stage == Stage::Locations,
        Key::Edge | Key::Edges => stage >= Stage::Locations && whole,
        Key::Clk | Key::Dif | Key::Val => stage == Stage::Guard,
        Key::Zero => stage == Stage::Guard || stage == Stage::Resets,
    }
}

// Whether the last task, or the last edge where there is one, has room for an assignment more.
fn set_has_room(draft: &Draft) -> bool
    ensures { result ≡ set_room (plan_of draft.now) }
{
    if draft.edges().is_empty() {
        last(draft.tasks()).is_some_and(|task| group::has_room(&task.assignments))
    } else {
        last(draft.edges()).is_some_and(|edge| group::has_room(&edge.assignments))
    }
}

// Whether there is room for one more line of a kind.
pub(crate) fn has_room(draft: &Draft, key: Key) -> bool
    ensures { result ≡ room key (plan_of draft.now) }
{
    match key {
        Key::Form | Key::Autos | Key::Clocks | Key::Triggers | Key::Chans | Key::Edges => true,
        Key::Var => draft.variables().len() < 16,
        Key::Task => draft.tasks().len() < 16,
        Key::Set => set_has_room(draft),
        Key::Loc => draft.locations().len() < 64,
        Key::Inv => {
            last(draft.locations()).is_some_and(|location| group::has_room(&location.invariants))
        }
        Key::Edge => draft.edges().len() < 128,
        Key::Clk | Key::Dif | Key::Val => {
            last(draft.edges()).is_some_and(|edge| group::has_room(&edge.guard))
        }
        Key::Zero => last(draft.edges()).is_some_and(|edge| group::has_room(&edge.resets)),
    }
}
