// Builds one small sequence, an exposure, and prints what it holds, part by part.
#![tactic(auto)]

use anyhow::anyhow;
use parts::part::{
    Assignment, Condition, Counts, Edge, Invariant, Label, Location, Relation, Reset, Rule, Task,
    Variable,
};
use sequence::draft::Draft;
use sequence::memory::Memory;
use sequence::whole::Sequence;
use std::io;

// An edge with nothing but its ends.
// Test crates have the like of this and of `only`: a crate for all would be longer.
fn plain(from: u8, to: u8) -> Edge {
    Edge {
        from,
        to,
        label: Label::Internal,
        guard: [None; 4],
        resets: [None; 4],
        assignments: [None; 4],
    }
}

// A group of one part.
fn only<T: Copy>(part: T) -> [Option<T>; 4] {
    [Some(part), None, None, None]
}

// From idle (0) a trigger starts the settling (1) of four ticks, then comes the read-out (2), which the task does.
fn add_parts(draft: &mut Draft) -> Result<(), Rule> {
    let count = Assignment {
        target: 0,
        source: Some(0),
        constant: 1,
    };
    let clear = Assignment {
        target: 0,
        source: None,
        constant: 0,
    };
    let settled = Condition::Clock(0, Relation::Ge, 4);
    let done = Condition::Variable(0, Relation::Ge, 1);
    let settling = Invariant {
        clock: 0,
        strict: false,
        bound: 4,
    };
    draft.add_variable(Variable {
        low: 0,
        high: 2,
        start: 0,
    })?;
    draft.add_task(Task {
        cost: 3,
        deadline: 5,
        priority: 1,
        assignments: only(count),
    })?;
    draft.add_location(Location {
        automaton: 0,
        task: None,
        invariants: [None; 2],
    })?;
    draft.add_location(Location {
        automaton: 0,
        task: None,
        invariants: [Some(settling), None],
    })?;
    draft.add_location(Location {
        automaton: 0,
        task: Some(0),
        invariants: [None; 2],
    })?;
    draft.add_edge(Edge {
        label: Label::Trigger(0),
        resets: only(Reset { clock: 0 }),
        ..plain(0, 1)
    })?;
    draft.add_edge(Edge {
        guard: only(settled),
        ..plain(1, 2)
    })?;
    draft.add_edge(Edge {
        guard: only(done),
        assignments: only(clear),
        ..plain(2, 0)
    })
}

// The texts of the parts are this program's own, one each: plain functions are shorter than a type for each text.
fn print_assignment(rt: &HostRuntime, assignment: Assignment) -> io::Result<()> {
    let Assignment {
        target,
        source,
        constant,
    } = assignment;
    match source {
        None => println!(rt; "  sets variable {target} to {constant}"),
        Some(source) => println!(rt; "  sets variable {target} to variable {source} + {constant}"),
    }
}

fn print_condition(rt: &HostRuntime, condition: Condition) -> io::Result<()> {
    match condition {
        Condition::Clock(clock, relation, k) => {
            println!(rt; "  when clock {clock} {relation} {k}")
        }
        Condition::Difference(first, second, relation, k) => {
            println!(rt; "  when clock {first} - clock {second} {relation} {k}")
        }
        Condition::Variable(variable, relation, k) => {
            println!(rt; "  when variable {variable} {relation} {k}")
        }
    }
}

fn print_assignments(rt: &HostRuntime, assignments: &[Option<Assignment>; 4]) -> io::Result<()> {
    for assignment in assignments.iter().flatten() {
        print_assignment(rt, *assignment)?;
    }
    Ok(())
}

fn print_task(rt: &HostRuntime, number: usize, task: &Task) -> io::Result<()> {
    let Task {
        cost,
        deadline,
        priority,
        assignments,
    } = task;
    println!(rt; "task {number}: C {cost}, D {deadline}, P {priority}")?;
    print_assignments(rt, assignments)
}

fn print_location(rt: &HostRuntime, number: usize, location: &Location) -> io::Result<()> {
    let automaton = location.automaton;
    println!(rt; "location {number}: of automaton {automaton}")?;
    if let Some(task) = location.task {
        println!(rt; "  releases task {task}")?;
    }
    for invariant in location.invariants.iter().flatten() {
        let Invariant {
            clock,
            strict,
            bound,
        } = *invariant;
        let sign = if strict { "<" } else { "<=" };
        println!(rt; "  while clock {clock} {sign} {bound}")?;
    }
    Ok(())
}

fn print_edge(rt: &HostRuntime, number: usize, edge: &Edge) -> io::Result<()> {
    let from = edge.from;
    let to = edge.to;
    println!(rt; "edge {number}: from {from} to {to}")?;
    match edge.label {
        Label::Internal => {}
        Label::Trigger(n) => println!(rt; "  on trigger {n}")?,
        Label::Send(n) => println!(rt; "  sends on channel {n}")?,
        Label::Receive(n) => println!(rt; "  receives on channel {n}")?,
    }
    for condition in edge.guard.iter().flatten() {
        print_condition(rt, *condition)?;
    }
    for Reset { clock } in edge.resets.iter().flatten() {
        println!(rt; "  zeroes clock {clock}")?;
    }
    print_assignments(rt, &edge.assignments)
}

fn print_sequence(rt: &HostRuntime, sequence: &Sequence) -> io::Result<()> {
    let Counts {
        automata,
        clocks,
        triggers,
        channels,
    } = sequence.counts();
    println!(rt; "automata {automata}, clocks {clocks}, triggers {triggers}, channels {channels}")?;
    for (number, variable) in sequence.variables().iter().enumerate() {
        let Variable { low, high, start } = variable;
        println!(rt; "variable {number}: from {low} to {high}, starts at {start}")?;
    }
    for (number, task) in sequence.tasks().iter().enumerate() {
        print_task(rt, number, task)?;
    }
    for (number, location) in sequence.locations().iter().enumerate() {
        print_location(rt, number, location)?;
    }
    for (number, edge) in sequence.edges().iter().enumerate() {
        print_edge(rt, number, edge)?;
    }
    Ok(())
}

fn main(rt: HostRuntime) -> anyhow::Result<()> {
    let memory = Memory::new(rt.alloc())?;
    let counts = Counts {
        automata: 1,
        clocks: 1,
        triggers: 1,
        channels: 0,
    };
    let mut draft = Draft::begin(memory, counts).map_err(|_| Rule::BadCounts)?;
    add_parts(&mut draft)?;
    if let Err(rule) = draft.add_edge(plain(2, 3)) {
        println!(rt; "refused: an edge from 2 to 3 (rule: {rule})")?;
    }
    let sequence = draft
        .finish()
        .map_err(|_| anyhow!("an automaton has no location"))?;
    print_sequence(&rt, &sequence)?;
    Ok(())
}
