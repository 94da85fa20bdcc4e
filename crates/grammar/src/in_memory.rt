// What stands in memory is in its widths: numbers by their types, groups by their arrays.
ghost use Rattle.std.specs.Prelude.{◌≡◌, Bool, true};
ghost use Rattle.sequence.specs.Plan.{Valid, each};
ghost use Rattle.sequence.specs.Whole.{plan};
ghost use Rattle.lexical.specs.Fields.{good_or_none};
ghost use Rattle.grammar.specs.Widths.{variable_in_widths, assignment_in_widths, condition_in_widths, task_in_widths, location_in_widths, edge_in_widths, in_widths};

use parts::part::{Assignment, Condition, Edge, Location, Task, Variable};
use sequence::whole::Sequence;

// A part whose widths its type gives.
trait Wide {
    ghost widths: { Self → Bool };

    fn keeps_widths(self)
        ensures { widths self ≡ true };
}

impl Wide for Variable {
    ghost widths = { variable_in_widths };

    fn keeps_widths(self) {}
}

impl Wide for Assignment {
    ghost widths = { assignment_in_widths };

    fn keeps_widths(self) {}
}

impl Wide for Condition {
    ghost widths = { condition_in_widths };

    fn keeps_widths(self) {
        match self {
            Condition::Clock(_, _, _) => {}
            Condition::Difference(_, _, _, _) => {}
            Condition::Variable(_, _, _) => {}
        }
    }
}

impl<T: Wide> Wide for Option<T> {
    ghost widths = { λ o. good_or_none T.Wide.widths o };

    fn keeps_widths(self) {
        if let Some(part) = self {
            part.keeps_widths();
        }
    }
}

// Parts in a row.
fn all_keep_widths<T: Wide + Copy>(parts: &[T])
    ensures { each T.Wide.widths parts.now ≡ true }
{
    for part in parts {
        (*part).keeps_widths();
    }
}

impl Wide for Task {
    ghost widths = { task_in_widths };

    fn keeps_widths(self) {
        all_keep_widths(&self.assignments);
    }
}

impl Wide for Location {
    ghost widths = { location_in_widths };

    fn keeps_widths(self) {}
}

impl Wide for Edge {
    ghost widths = { edge_in_widths };

    fn keeps_widths(self) {
        all_keep_widths(&self.guard);
        all_keep_widths(&self.assignments);
    }
}

// A sequence in memory breaks no limit and is in its widths, so the laws hold of its text.
pub fn sequence_keeps_widths(sequence: &Sequence)
    ensures valid { Valid (plan sequence.now) }
    ensures widths { in_widths (plan sequence.now) ≡ true }
{
    all_keep_widths(sequence.variables());
    all_keep_widths(sequence.tasks());
    all_keep_widths(sequence.locations());
    all_keep_widths(sequence.edges());
}
