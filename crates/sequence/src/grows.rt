// Parts that have groups of parts, and the last of a list grown by a part of such a group.
ghost use Rattle.std.specs.Prelude.{◌≡◌, Bool, vec_capacity};
ghost use Rattle.sequence.specs.Growing.{assigning_task, limited, has_room, last_grown, Becomes};

mod edges;

use crate::group::{fill, has_room};
use parts::Refers;
use parts::part::{Assignment, Invariant, Location, Rule, Scope, Task};

// A part that has a group of parts of a kind.
pub(crate) trait Grows<T>: Copy {
    // whether the group has a place left
    ghost roomy: { Self → Bool };

    // the part with one more in its group
    ghost one_more: { T → Self → Self };

    fn has_room(&self) -> bool
        ensures { result ≡ roomy self.now };

    fn grow(&mut self, part: T)
        ensures { self.new ≡ one_more part self.old };
}

impl Grows<Assignment> for Task {
    ghost roomy = { λ t. has_room 4 t.assignments };

    ghost one_more = { assigning_task };

    fn has_room(&self) -> bool {
        has_room(&self.assignments)
    }

    fn grow(&mut self, assignment: Assignment) {
        fill(&mut self.assignments, assignment);
    }
}

impl Grows<Invariant> for Location {
    ghost roomy = { λ l. has_room 2 l.invariants };

    ghost one_more = { limited };

    fn has_room(&self) -> bool {
        has_room(&self.invariants)
    }

    fn grow(&mut self, invariant: Invariant) {
        fill(&mut self.invariants, invariant);
    }
}

// The last of a list grows: there has to be one, its group has room, and what is added fits.
pub(crate) fn grow_last<P: Grows<T>, T: Refers + Copy>(
    list: &mut Vec<P>,
    part: T,
    scope: &Scope,
    rule: Rule,
) -> Result<(), Rule>
    ensures grows { Becomes (last_grown P.roomy (T.fits scope.now part) (P.one_more part) rule list.old.items) list.old.items list.new.items result }
    ensures capacity { vec_capacity list.new ≡ vec_capacity list.old }
{
    // by `let else`: through `ok_or` what is lent is not known to write back
    let Some(last) = list.last_mut() else {
        return Err(Rule::OutOfTurn);
    };
    if !last.has_room() {
        return Err(Rule::TooMany);
    }
    if !part.fits_in(scope) {
        return Err(rule);
    }
    last.grow(part);
    Ok(())
}
