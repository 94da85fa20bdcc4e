// Taking an edge, alone or with a partner: all of the step, or nothing of it.
ghost use Rattle.std.specs.Prelude.{◌≡◌, ◌+◌, ◌≤◌, length, nat_le};
ghost use Rattle.runs.specs.Edges.{sides as in_turn};
ghost use Rattle.runs.specs.Values.{assign_edges};
ghost use Rattle.moves.specs.Assigning.{Assigns};
ghost use Rattle.moves.specs.Changes.{releases, releases_at, side_taken, sides_taken};
ghost use Rattle.moves.specs.State.{state};
ghost use Rattle.events.specs.Steps.{listed, StepTaken};

use crate::sides::Sides;
use jobs::Order;
use moves::engine::Engine;
use parts::part::{Edge, Label};
use rows::fault::StepFault;
use runs::event::Cause;

const MOST_JOBS: usize = 32;

const MOST_STEPS: u8 = 64;

impl Sides {
    // The sender's side first; an edge alone is the only side.
    fn new(edge: &Edge, partner: Option<Edge>) -> Self
        ensures { listed result ≡ in_turn edge.now partner }
    {
        match (edge.label, partner) {
            (Label::Receive(_), Some(sender)) => Sides {
                first: sender,
                second: Some(*edge),
            },
            _ => Sides {
                first: *edge,
                second: partner,
            },
        }
    }
}

// Whether the jobs that a step releases find room.
fn has_room(engine: &Engine, sides: &Sides) -> bool
    ensures { result ≡ nat_le (length (state engine.now).waiting + releases (state engine.now).plan (listed sides.now)) 32 }
{
    let first = engine.releases(sides.first.to);
    let second = sides.second.map_or(0, |edge| engine.releases(edge.to));
    engine.core.queue.len() + first + second <= MOST_JOBS
}

// The assignments of a step.
fn assign_sides(engine: &mut Engine, sides: &Sides, room: bool) -> Result<(), StepFault>
    ensures { Assigns room (assign_edges (state engine.old).plan.variables (listed sides.now) (state engine.old).values) (state engine.old) (state engine.new) result }
{
    let second = sides
        .second
        .as_ref()
        .map_or(&[][..], |edge| &edge.assignments);
    engine.assign(&sides.first.assignments, second, room)
}

// What one side of a step changes beside the variables. That there is room is asked once, in `has_room`; here and below it is
// a premise, each of other edges.
fn take_side<O: Order>(engine: &mut Engine, order: &O, edge: &Edge)
    ensures { length (state engine.old).waiting + releases_at (state engine.old).plan edge.now.to ≤ 32 → state engine.new ≡ side_taken (O.Precedence.before order.now) edge.now (state engine.old) }
{
    engine.zero(&edge.resets);
    engine.follow(edge);
    engine.release(order, edge.to);
}

// What all sides of a step change beside the variables.
fn take_sides<O: Order>(engine: &mut Engine, order: &O, sides: &Sides)
    ensures { length (state engine.old).waiting + releases (state engine.old).plan (listed sides.now) ≤ 32 → state engine.new ≡ sides_taken (O.Precedence.before order.now) (listed sides.now) (state engine.old) }
{
    take_side(engine, order, &sides.first);
    if let Some(edge) = sides.second {
        take_side(engine, order, &edge);
    }
}

// An edge is taken with its partner, or the answer says why not and nothing has changed.
pub fn take<O: Order>(
    engine: &mut Engine,
    order: &O,
    edge: &Edge,
    partner: Option<Edge>,
) -> Result<(), Cause>
    ensures { StepTaken (O.Precedence.before order.now) edge.now partner (state engine.old) (state engine.new) result }
{
    if engine.core.steps >= MOST_STEPS {
        return Err(Cause::StepLimit);
    }
    let sides = Sides::new(edge, partner);
    assign_sides(engine, &sides, has_room(engine, &sides))?;
    take_sides(engine, order, &sides);
    engine.count_step(edge.label);
    Ok(())
}
