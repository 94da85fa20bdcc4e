// The parts of a sequence, and the limits that each has to keep.
#![tactic(auto)]

ghost use Rattle.std.specs.Prelude.{◌≡◌, Bool, slice_set};
ghost use Rattle.std.specs.List.{slice_get};
ghost use Rattle.parts.specs.declared.part.Scope.{Scope};
ghost use Rattle.parts.specs.Limits.{group_fits, counts_fit, variable_fits, assignment_fits, reset_fits, invariant_fits, condition_fits, label_fits, task_fits, location_fits, edge_fits, present_or_none};

mod display;
pub mod part;

use part::{
    Assignment, Condition, Counts, Edge, Invariant, Label, Location, Reset, Scope, Task, Variable,
};

// The last tick, and the largest constant for clocks and their differences.
pub const LAST_TICK: u32 = 1_000_000_000;

// A part that refers to others by number.
pub trait Refers {
    // whether all that it refers to is there, and its constants are in range
    ghost fits: { Scope → Self → Bool };

    fn fits_in(&self, scope: &Scope) -> bool
        ensures { result ≡ fits scope.now self.now };
}

impl Refers for Assignment {
    ghost fits = { assignment_fits };

    fn fits_in(&self, scope: &Scope) -> bool {
        (self.target as usize) < scope.variables && is_there(self.source, scope.variables)
    }
}

impl Refers for Reset {
    ghost fits = { reset_fits };

    fn fits_in(&self, scope: &Scope) -> bool {
        self.clock < scope.counts.clocks
    }
}

impl Refers for Invariant {
    ghost fits = { invariant_fits };

    fn fits_in(&self, scope: &Scope) -> bool {
        self.clock < scope.counts.clocks && self.bound <= LAST_TICK
    }
}

impl Refers for Condition {
    ghost fits = { condition_fits };

    fn fits_in(&self, scope: &Scope) -> bool {
        let clocks = scope.counts.clocks;
        match *self {
            Condition::Clock(clock, _, k) => clock < clocks && k <= LAST_TICK,
            Condition::Difference(first, second, _, k) => {
                first < clocks && second < clocks && (-1_000_000_000..=1_000_000_000).contains(&k)
            }
            Condition::Variable(variable, _, _) => (variable as usize) < scope.variables,
        }
    }
}

// What stands at a place, or none behind the end.
pub fn item<T: Copy>(row: &[T], place: usize) -> Option<T>
    ensures { result ≡ slice_get row.now place }
{
    row.get(place).copied()
}

// Puts a value at a place; behind the end nothing changes.
pub fn set_item<T: Copy>(row: &mut [T], place: usize, x: T)
    ensures { row.new ≡ slice_set row.old place x }
{
    // by place: the library's `get_mut` says nothing of what the slice ends as
    if place < row.len() {
        row[place] = x;
    }
}

// Whether there is no number, or one below a count.
fn is_there(number: Option<u8>, count: usize) -> bool
    ensures { result ≡ present_or_none number count }
{
    number.is_none_or(|n| (n as usize) < count)
}

// Whether the first places of a group are in use and each part in it fits.
pub fn group_fits<T: Refers>(row: &[Option<T>], scope: &Scope) -> bool
    ensures { result ≡ group_fits (T.Refers.fits scope.now) row.now }
{
    // a loop: for `skip_while(..).all(..)` it stayed open what the two answer together
    let mut over = false;
    for part in row {
        match part {
            None => over = true,
            Some(x) => {
                if over || !x.fits_in(scope) {
                    return false;
                }
            }
        }
    }
    true
}

impl Counts {
    pub fn fit(&self) -> bool
        ensures { result ≡ counts_fit self.now }
    {
        (1..=8).contains(&self.automata)
            && self.clocks <= 16
            && self.triggers <= 16
            && self.channels <= 8
    }
}

impl Variable {
    pub fn fits(&self) -> bool
        ensures { result ≡ variable_fits self.now }
    {
        (self.low..=self.high).contains(&self.start)
    }
}

impl Label {
    pub fn fits(&self, scope: &Scope) -> bool
        ensures { result ≡ label_fits scope.now self.now }
    {
        match *self {
            Label::Internal => true,
            Label::Trigger(n) => n < scope.counts.triggers,
            Label::Send(n) | Label::Receive(n) => n < scope.counts.channels,
        }
    }
}

impl Task {
    pub fn fits(&self, scope: &Scope) -> bool
        ensures { result ≡ task_fits scope.now self.now }
    {
        (1..=self.deadline).contains(&self.cost)
            && self.deadline <= 1_000_000
            && group_fits(&self.assignments, scope)
    }
}

impl Location {
    pub fn fits(&self, scope: &Scope) -> bool
        ensures { result ≡ location_fits scope.now self.now }
    {
        is_there(self.task, scope.tasks) && group_fits(&self.invariants, scope)
    }
}

impl Edge {
    // All but the ends.
    pub fn fits(&self, scope: &Scope) -> bool
        ensures { result ≡ edge_fits scope.now self.now }
    {
        self.label.fits(scope)
            && group_fits(&self.guard, scope)
            && group_fits(&self.resets, scope)
            && group_fits(&self.assignments, scope)
    }
}
