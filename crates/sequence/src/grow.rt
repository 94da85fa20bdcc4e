// The last task, location or edge of a draft grows by one part of a group: a public call for each group, with its own
// definition; what they share is `grow_last`.
ghost use Rattle.std.specs.Prelude.{◌≡◌};
ghost use Rattle.sequence.specs.Growing.{add_task_assignment, add_invariant, add_condition, add_reset, add_edge_assignment};
ghost use Rattle.sequence.specs.Model.{plan_of, Adds};

use crate::draft::Draft;
use crate::grows::grow_last;
use parts::part::{Assignment, Condition, Invariant, Reset, Rule};

impl Draft {
    // One assignment more for the last task, while there are no locations.
    pub fn add_task_assignment(&mut self, assignment: Assignment) -> Result<(), Rule>
        ensures { Adds (add_task_assignment (plan_of self.old) assignment) (plan_of self.old) (plan_of self.new) result }
    {
        if !self.lists.locations.is_empty() || !self.lists.edges.is_empty() {
            return Err(Rule::OutOfTurn);
        }
        let scope = self.scope();
        grow_last(&mut self.lists.tasks, assignment, &scope, Rule::BadTask)
    }

    // One invariant more for the last location, while there are no edges.
    pub fn add_invariant(&mut self, invariant: Invariant) -> Result<(), Rule>
        ensures { Adds (add_invariant (plan_of self.old) invariant) (plan_of self.old) (plan_of self.new) result }
    {
        if !self.lists.edges.is_empty() {
            return Err(Rule::OutOfTurn);
        }
        let scope = self.scope();
        grow_last(
            &mut self.lists.locations,
            invariant,
            &scope,
            Rule::BadLocation,
        )
    }

    // One condition more for the last edge.
    pub fn add_condition(&mut self, condition: Condition) -> Result<(), Rule>
        ensures { Adds (add_condition (plan_of self.old) condition) (plan_of self.old) (plan_of self.new) result }
    {
        let scope = self.scope();
        grow_last(&mut self.lists.edges, condition, &scope, Rule::BadEdge)
    }

    // One clock more that the last edge zeroes.
    pub fn add_reset(&mut self, reset: Reset) -> Result<(), Rule>
        ensures { Adds (add_reset (plan_of self.old) reset) (plan_of self.old) (plan_of self.new) result }
    {
        let scope = self.scope();
        grow_last(&mut self.lists.edges, reset, &scope, Rule::BadEdge)
    }

    // One assignment more for the last edge.
    pub fn add_edge_assignment(&mut self, assignment: Assignment) -> Result<(), Rule>
        ensures { Adds (add_edge_assignment (plan_of self.old) assignment) (plan_of self.old) (plan_of self.new) result }
    {
        let scope = self.scope();
        grow_last(&mut self.lists.edges, assignment, &scope, Rule::BadEdge)
    }
}
