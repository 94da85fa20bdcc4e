// The groups of an edge.
ghost use Rattle.sequence.specs.Growing.{guarded, resetting, assigning_edge, has_room};

use super::Grows;
use crate::group::{fill, has_room};
use parts::part::{Assignment, Condition, Edge, Reset};

impl Grows<Condition> for Edge {
    ghost roomy = { λ e. has_room 4 e.guard };

    ghost one_more = { guarded };

    fn has_room(&self) -> bool {
        has_room(&self.guard)
    }

    fn grow(&mut self, condition: Condition) {
        fill(&mut self.guard, condition);
    }
}

impl Grows<Reset> for Edge {
    ghost roomy = { λ e. has_room 4 e.resets };

    ghost one_more = { resetting };

    fn has_room(&self) -> bool {
        has_room(&self.resets)
    }

    fn grow(&mut self, reset: Reset) {
        fill(&mut self.resets, reset);
    }
}

impl Grows<Assignment> for Edge {
    ghost roomy = { λ e. has_room 4 e.assignments };

    ghost one_more = { assigning_edge };

    fn has_room(&self) -> bool {
        has_room(&self.assignments)
    }

    fn grow(&mut self, assignment: Assignment) {
        fill(&mut self.assignments, assignment);
    }
}
