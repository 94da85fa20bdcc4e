// What a taken edge changes, part by part.
ghost use Rattle.std.specs.Prelude.{◌≡◌, ◌+◌, ◌<◌, slice_set};
ghost use Rattle.runs.specs.State.{automaton};
ghost use Rattle.runs.specs.Edges.{reset_all, take_trigger};
ghost use Rattle.rows.specs.Rows.{assign_both};
ghost use Rattle.moves.specs.State.{state};
ghost use Rattle.moves.specs.Changes.{with_zeroed, with_places, stepped};
ghost use Rattle.moves.specs.Assigning.{Assigns};

use crate::engine::Engine;
use parts::part::{Assignment, Edge, Label, Reset};
use rows::fault::StepFault;
use rows::step::run_step;
use rows::take::{move_to, reset_all, take_trigger};

impl Engine {
    // Clocks are zeroed at this tick.
    pub fn zero(&mut self, resets: &[Option<Reset>])
        ensures { state self.new ≡ with_zeroed (reset_all self.old.core.now resets.now (state self.old).zeroed) (state self.old) }
    {
        reset_all(&mut self.core.zeroed, resets, self.core.now);
    }

    // The automaton of a location.
    fn automaton_of(&self, location: u8) -> u8
        ensures { result ≡ automaton (state self.now).plan location }
    {
        self.core
            .sequence
            .location(location)
            .map_or(0, |l| l.automaton)
    }

    // An edge leads its automaton to the new location.
    pub fn follow(&mut self, edge: &Edge)
        ensures { state self.new ≡ with_places (slice_set (state self.old).places (automaton (state self.old).plan edge.now.from) edge.now.to) (state self.old) }
    {
        let automaton = self.automaton_of(edge.from);
        move_to(&mut self.core.places, automaton, edge.to);
    }

    // A step is counted, and its trigger is taken.
    pub fn count_step(&mut self, label: Label)
        requires { self.old.core.steps < 64 }
        ensures { state self.new ≡ stepped (take_trigger label (state self.old).present) (state self.old) }
    {
        take_trigger(&mut self.core.present, label);
        self.core.steps += 1;
    }

    // The assignments of a step, the first group's, then the second's. Refused as a whole where one leaves a range, or
    // where there is no room.
    pub fn assign(
        &mut self,
        first: &[Option<Assignment>],
        second: &[Option<Assignment>],
        room: bool,
    ) -> Result<(), StepFault>
        ensures { Assigns room (assign_both (state self.old).plan.variables first.now second.now (state self.old).values) (state self.old) (state self.new) result }
    {
        let variables = self.core.sequence.variables();
        // The row is copied out and back: it cannot be lent while the sequence beside it, a type with ghost fields, is.
        let mut row = self.core.values;
        let done = run_step(variables, &mut row[..variables.len()], first, second, room);
        self.core.values = row;
        done
    }
}
