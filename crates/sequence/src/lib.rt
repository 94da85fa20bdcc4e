// A sequence as a value: it can only be valid. A builder for callers who do not come from text, and reading access.
#![tactic(auto)]

ghost use Rattle.std.specs.Prelude.{◌≡◌, true, false, IfOk, Ok, Err, MatchResult};
ghost use Rattle.std.specs.List.{slice_get};
ghost use Rattle.sequence.specs.Plan.{scope, reached, automaton_of, ends_fit, complete};
ghost use Rattle.sequence.specs.Building.{begin, add_variable, add_task, add_location, add_edge, next_automaton};
ghost use Rattle.sequence.specs.Listed.{Empty};
ghost use Rattle.sequence.specs.Model.{plan_of, Adds};
ghost use Rattle.sequence.specs.Memories.{RoomyAndEmpty};
ghost use Rattle.sequence.specs.Whole.{plan};
ghost use Rattle.sequence.specs.Rebuilding.{EverySequenceIsBuilt};

pub mod draft;
pub mod group;
pub mod grow;
mod grows;
mod lists;
pub mod memory;
pub mod whole;

use draft::Draft;
use group::last;
use lists::Lists;
use memory::Memory;
use parts::item;
use parts::part::{Counts, Edge, Location, Rule, Scope, Task, Variable};
use std::alloc::{AllocError, Global};
use whole::Sequence;

// The answer to counts that break a limit.
#[derive(Drop)]
pub struct BadCounts(pub Memory);

impl Lists {
    // Room for all that a sequence can hold, and nothing in it.
    fn new(heap: Global) -> Result<Self, AllocError>
        ensures { IfOk result (λ l. Empty l) }
    {
        let variables = Vec::with_capacity(heap, 16)?;
        let tasks = Vec::with_capacity(heap, 16)?;
        let locations = Vec::with_capacity(heap, 64)?;
        let edges = Vec::with_capacity(heap, 128)?;
        Ok(Lists {
            variables,
            tasks,
            locations,
            edges,
        })
    }

    // Drops all parts.
    fn clear(&mut self)
        ensures { Empty self.new }
    {
        self.variables.clear();
        self.tasks.clear();
        self.locations.clear();
        self.edges.clear();
    }
}

impl Memory {
    // The one place where memory is got: room for all that a sequence can hold, and nothing in it.
    pub fn new(heap: Global) -> Result<Self, AllocError>
        ensures { IfOk result (λ m. RoomyAndEmpty m) }
    {
        Ok(Memory {
            lists: Lists::new(heap)?,
        })
    }
}

impl Draft {
    // A draft with nothing but counts. Where they break a limit the memory is handed back.
    pub fn begin(memory: Memory, counts: Counts) -> Result<Self, BadCounts>
        ensures { MatchResult result (λ d. begin counts ≡ Ok (plan_of d)) (λ b. (begin counts ≡ Err (Rule.BadCounts)) × (b.0 ≡ memory)) }
    {
        if !counts.fit() {
            return Err(BadCounts(memory));
        }
        Ok(Draft {
            counts,
            lists: memory.lists,
        })
    }

    // The memory again, with all parts dropped.
    pub fn into_memory(self) -> Memory
        ensures { RoomyAndEmpty result }
    {
        let mut lists = self.lists;
        lists.clear();
        Memory { lists }
    }

    // Whether every automaton has a location.
    pub fn is_complete(&self) -> bool
        ensures { result ≡ complete (plan_of self.now) }
    {
        self.reached() == self.counts.automata as u16
    }

    // The sequence, once every automaton has a location; else the draft is handed back.
    pub fn finish(self) -> Result<Sequence, Draft>
        ensures { MatchResult result (λ s. (plan s ≡ plan_of self) × (complete (plan_of self) ≡ true)) (λ d. (d ≡ self) × (complete (plan_of self) ≡ false)) }
    {
        if !self.is_complete() {
            return Err(self);
        }
        Ok(Sequence { draft: self })
    }

    // What a further part may refer to.
    pub fn scope(&self) -> Scope
        ensures { result ≡ scope (plan_of self.now) }
    {
        Scope {
            counts: self.counts,
            variables: self.lists.variables.len(),
            tasks: self.lists.tasks.len(),
        }
    }

    // All variables so far, by number.
    pub fn variables(&self) -> &[Variable]
        ensures { result.now ≡ (plan_of self.now).variables }
    {
        &self.lists.variables
    }

    // All tasks so far, by number.
    pub fn tasks(&self) -> &[Task]
        ensures { result.now ≡ (plan_of self.now).tasks }
    {
        &self.lists.tasks
    }

    // All locations so far, by number.
    pub fn locations(&self) -> &[Location]
        ensures { result.now ≡ (plan_of self.now).locations }
    {
        &self.lists.locations
    }

    // All edges so far, by number.
    pub fn edges(&self) -> &[Edge]
        ensures { result.now ≡ (plan_of self.now).edges }
    {
        &self.lists.edges
    }

    // One variable more.
    pub fn add_variable(&mut self, variable: Variable) -> Result<(), Rule>
        ensures { Adds (add_variable (plan_of self.old) variable) (plan_of self.old) (plan_of self.new) result }
    {
        if !self.lists.tasks.is_empty()
            || !self.lists.locations.is_empty()
            || !self.lists.edges.is_empty()
        {
            return Err(Rule::OutOfTurn);
        }
        if self.lists.variables.len() >= 16 {
            return Err(Rule::TooMany);
        }
        if !variable.fits() {
            return Err(Rule::BadVariable);
        }
        self.lists.variables.push_reserved(variable);
        Ok(())
    }

    // One task more.
    pub fn add_task(&mut self, task: Task) -> Result<(), Rule>
        ensures { Adds (add_task (plan_of self.old) task) (plan_of self.old) (plan_of self.new) result }
    {
        if !self.lists.locations.is_empty() || !self.lists.edges.is_empty() {
            return Err(Rule::OutOfTurn);
        }
        if self.lists.tasks.len() >= 16 {
            return Err(Rule::TooMany);
        }
        if !task.fits(&self.scope()) {
            return Err(Rule::BadTask);
        }
        self.lists.tasks.push_reserved(task);
        Ok(())
    }

    // One location more.
    pub fn add_location(&mut self, location: Location) -> Result<(), Rule>
        ensures { Adds (add_location (plan_of self.old) location) (plan_of self.old) (plan_of self.new) result }
    {
        if !self.lists.edges.is_empty() {
            return Err(Rule::OutOfTurn);
        }
        if self.lists.locations.len() >= 64 {
            return Err(Rule::TooMany);
        }
        if !location.fits(&self.scope()) {
            return Err(Rule::BadLocation);
        }
        if !self.is_next(location.automaton) {
            return Err(Rule::BadAutomaton);
        }
        self.lists.locations.push_reserved(location);
        Ok(())
    }

    // One edge more.
    pub fn add_edge(&mut self, edge: Edge) -> Result<(), Rule>
        ensures { Adds (add_edge (plan_of self.old) edge) (plan_of self.old) (plan_of self.new) result }
    {
        if self.lists.edges.len() >= 128 {
            return Err(Rule::TooMany);
        }
        if !edge.fits(&self.scope()) {
            return Err(Rule::BadEdge);
        }
        if !self.ends_fit(&edge) {
            return Err(Rule::BadEnds);
        }
        self.lists.edges.push_reserved(edge);
        Ok(())
    }

    // How many automata have a location.
    fn reached(&self) -> u16
        ensures { result ≡ reached 0 self.now.lists.locations.items }
    {
        last(&self.lists.locations).map_or(0, |location| location.automaton as u16 + 1)
    }

    // Whether the next location may be of an automaton.
    fn is_next(&self, automaton: u8) -> bool
        ensures { result ≡ next_automaton (plan_of self.now) automaton }
    {
        let reached = self.reached();
        let automaton = automaton as u16;
        (automaton + 1 == reached || automaton == reached)
            && automaton < self.counts.automata as u16
    }

    // The automaton of a location that is there.
    fn automaton_of(&self, location: u8) -> Option<u8>
        ensures { result ≡ automaton_of (slice_get self.now.lists.locations.items location) }
    {
        item(&self.lists.locations, location as usize).map(|location| location.automaton)
    }

    // Whether both ends of an edge are locations of one automaton.
    fn ends_fit(&self, edge: &Edge) -> bool
        ensures { result ≡ ends_fit self.now.lists.locations.items edge.now }
    {
        let from = self.automaton_of(edge.from);
        from.is_some() && from == self.automaton_of(edge.to)
    }
}

impl Sequence {
    pub fn counts(&self) -> Counts
        ensures { result ≡ (plan self.now).counts }
    {
        self.draft.counts
    }

    // All variables, by number.
    pub fn variables(&self) -> &[Variable]
        ensures { result.now ≡ (plan self.now).variables }
    {
        self.draft.variables()
    }

    // All tasks, by number.
    pub fn tasks(&self) -> &[Task]
        ensures { result.now ≡ (plan self.now).tasks }
    {
        self.draft.tasks()
    }

    // All locations, by number.
    pub fn locations(&self) -> &[Location]
        ensures { result.now ≡ (plan self.now).locations }
    {
        self.draft.locations()
    }

    // All edges, by number.
    pub fn edges(&self) -> &[Edge]
        ensures { result.now ≡ (plan self.now).edges }
    {
        self.draft.edges()
    }

    // The variable of a number, or none.
    pub fn variable(&self, number: u8) -> Option<Variable>
        ensures { result ≡ slice_get (plan self.now).variables number }
    {
        item(self.variables(), number as usize)
    }

    // The task of a number, or none.
    pub fn task(&self, number: u8) -> Option<Task>
        ensures { result ≡ slice_get (plan self.now).tasks number }
    {
        item(self.tasks(), number as usize)
    }

    // The location of a number, or none.
    pub fn location(&self, number: u8) -> Option<Location>
        ensures { result ≡ slice_get (plan self.now).locations number }
    {
        item(self.locations(), number as usize)
    }

    // The edge of a number, or none.
    pub fn edge(&self, number: u8) -> Option<Edge>
        ensures { result ≡ slice_get (plan self.now).edges number }
    {
        item(self.edges(), number as usize)
    }
}

// No sequence breaks a limit, and the parts of any valid plan, put in again, give that plan.
pub fn every_sequence_is_built()
    ensures { EverySequenceIsBuilt }
{}
