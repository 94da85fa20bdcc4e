// Every limit of a sequence at its edge and one over, through the builder.
#![tactic(auto)]

use parts::part::{
    Assignment, Condition, Counts, Edge, Invariant, Label, Location, Relation, Reset, Rule, Task,
    Variable,
};
use sequence::draft::Draft;
use sequence::memory::Memory;
use sequence::whole::Sequence;
use std::alloc::{AllocError, Global};

// The builder's answer in a word: taken, or the rule that is broken;
// in words, since the values of the tests stay as they were.
fn word(answer: Result<(), Rule>) -> &'static str {
    match answer {
        Ok(()) => "taken",
        Err(Rule::BadCounts) => "counts",
        Err(Rule::OutOfTurn) => "turn",
        Err(Rule::TooMany) => "many",
        Err(Rule::BadVariable) => "variable",
        Err(Rule::BadTask) => "task",
        Err(Rule::BadLocation) => "location",
        Err(Rule::BadAutomaton) => "automaton",
        Err(Rule::BadEnds) => "ends",
        Err(Rule::BadEdge) => "edge",
    }
}

// A draft of these counts, or none where they are refused.
fn begun(heap: Global, counts: Counts) -> Result<Option<Draft>, AllocError> {
    Ok(Draft::begin(Memory::new(heap)?, counts).ok())
}

fn counts(automata: u8, clocks: u8, triggers: u8, channels: u8) -> Counts {
    Counts {
        automata,
        clocks,
        triggers,
        channels,
    }
}

fn variable(low: i16, start: i16, high: i16) -> Variable {
    Variable { low, high, start }
}

fn assign(target: u8, source: Option<u8>) -> Option<Assignment> {
    Some(Assignment {
        target,
        source,
        constant: -32_768,
    })
}

fn task(cost: u32, deadline: u32) -> Task {
    Task {
        cost,
        deadline,
        priority: 255,
        assignments: [None; 4],
    }
}

fn assigning(first: Option<Assignment>, second: Option<Assignment>) -> Task {
    Task {
        assignments: [first, second, None, None],
        ..task(1, 1)
    }
}

fn at_most(clock: u8, bound: u32) -> Option<Invariant> {
    Some(Invariant {
        clock,
        strict: false,
        bound,
    })
}

fn location(automaton: u8) -> Location {
    Location {
        automaton,
        task: None,
        invariants: [None; 2],
    }
}

fn limited(first: Option<Invariant>, second: Option<Invariant>) -> Location {
    Location {
        invariants: [first, second],
        ..location(0)
    }
}

fn edge(from: u8, to: u8) -> Edge {
    Edge {
        from,
        to,
        label: Label::Internal,
        guard: [None; 4],
        resets: [None; 4],
        assignments: [None; 4],
    }
}

fn labelled(label: Label) -> Edge {
    Edge {
        label,
        ..edge(0, 1)
    }
}

fn guarded(condition: Condition) -> Edge {
    Edge {
        guard: [Some(condition), None, None, None],
        ..edge(0, 1)
    }
}

fn zero(clock: u8) -> Option<Reset> {
    Some(Reset { clock })
}

// Two automata, three clocks, two triggers, a channel, two variables, a task; locations 0 and 1 of automaton 0, 2 of
// automaton 1.
fn small(heap: Global) -> Result<Option<Draft>, AllocError> {
    let Some(mut draft) = begun(heap, counts(2, 3, 2, 1))? else {
        return Ok(None);
    };
    let all = draft.add_variable(variable(0, 0, 1)).is_ok()
        && draft.add_variable(variable(0, 0, 1)).is_ok()
        && draft.add_task(task(1, 1)).is_ok()
        && draft.add_location(location(0)).is_ok()
        && draft.add_location(location(0)).is_ok()
        && draft.add_location(location(1)).is_ok();
    Ok(all.then_some(draft))
}

// The sequence of a draft that has all its parts.
fn finished(draft: Draft) -> Option<Sequence> {
    draft.finish().ok()
}

// The answer to the n-th part, counted from 0, where there is room for some.
fn room(n: u8, most: u8) -> &'static str {
    if n < most { "taken" } else { "many" }
}

// How many variables, tasks, locations and edges there are.
fn held(whole: &Sequence) -> [usize; 4] {
    [
        whole.variables().len(),
        whole.tasks().len(),
        whole.locations().len(),
        whole.edges().len(),
    ]
}

// Whether there are a variable, a task, a location and an edge of these numbers.
fn there(whole: &Sequence, variable: u8, task: u8, location: u8, edge: u8) -> [bool; 4] {
    [
        whole.variable(variable).is_some(),
        whole.task(task).is_some(),
        whole.location(location).is_some(),
        whole.edge(edge).is_some(),
    ]
}

fn automaton(whole: &Sequence, location: u8) -> Option<u8> {
    whole.location(location).map(|location| location.automaton)
}

fn clock(reset: Option<Reset>) -> Option<u8> {
    reset.map(|reset| reset.clock)
}

fn is_own_difference(condition: Option<Condition>) -> bool {
    matches!(
        condition,
        Some(Condition::Difference(1, 1, Relation::Eq, 0))
    )
}

#[cfg(test)]
mod tests {
    use super::*;
    use std::test::Fail;

    #[test]
    fn counts_at_their_limits(rt: HostRuntime) -> Result<(), Fail> {
        let rows = [
            (counts(0, 0, 0, 0), false),
            (counts(1, 0, 0, 0), true),
            (counts(8, 16, 16, 8), true),
            (counts(9, 16, 16, 8), false),
            (counts(8, 17, 16, 8), false),
            (counts(8, 16, 17, 8), false),
            (counts(8, 16, 16, 9), false),
        ];
        for (row, fits) in rows {
            assert_eq!(rt; begun(rt.alloc(), row)?.is_some(), fits);
        }
        Ok(())
    }

    #[test]
    fn a_start_within_its_range(rt: HostRuntime) -> Result<(), Fail> {
        let mut draft = begun(rt.alloc(), counts(1, 0, 0, 0))?.ok_or("refused")?;
        let rows = [
            (variable(-32_768, -32_768, 32_767), "taken"),
            (variable(-32_768, 32_767, 32_767), "taken"),
            (variable(5, 5, 5), "taken"),
            (variable(5, 4, 5), "variable"),
            (variable(5, 6, 5), "variable"),
            (variable(5, 5, 4), "variable"),
            (variable(0, 1, 2), "taken"),
        ];
        for (row, expected) in rows {
            let before = draft.scope().variables;
            assert_eq!(rt; word(draft.add_variable(row)), expected);
            let more = if expected == "taken" { 1 } else { 0 };
            assert_eq!(rt; draft.scope().variables, before.saturating_add(more));
        }
        assert_eq!(rt; draft.scope().variables, 4);
        Ok(())
    }

    #[test]
    fn tasks_within_their_limits(rt: HostRuntime) -> Result<(), Fail> {
        let mut draft = begun(rt.alloc(), counts(1, 0, 0, 0))?.ok_or("refused")?;
        for _ in 0..2u8 {
            assert!(rt; draft.add_variable(variable(0, 0, 0)).is_ok());
        }
        let rows = [
            (task(0, 1), "task"),
            (task(1, 1), "taken"),
            (task(2, 1), "task"),
            (task(1, 1_000_000), "taken"),
            (task(1, 1_000_001), "task"),
            (task(1_000_000, 1_000_000), "taken"),
            (task(1_000_001, 1_000_001), "task"),
            (assigning(assign(1, None), assign(0, Some(1))), "taken"),
            (assigning(assign(2, None), None), "task"),
            (assigning(assign(0, None), assign(0, Some(2))), "task"),
            (assigning(None, assign(0, None)), "task"),
        ];
        for (row, expected) in rows {
            let before = draft.scope().tasks;
            assert_eq!(rt; word(draft.add_task(row)), expected);
            let more = if expected == "taken" { 1 } else { 0 };
            assert_eq!(rt; draft.scope().tasks, before.saturating_add(more));
        }
        assert_eq!(rt; draft.scope().tasks, 4);
        Ok(())
    }

    #[test]
    fn locations_within_their_limits(rt: HostRuntime) -> Result<(), Fail> {
        let mut draft = begun(rt.alloc(), counts(3, 2, 0, 0))?.ok_or("refused")?;
        assert!(rt; draft.add_task(task(1, 1)).is_ok());
        let rows = [
            (location(1), "automaton"),
            (limited(at_most(1, 1_000_000_000), at_most(0, 0)), "taken"),
            (limited(at_most(1, 1_000_000_001), None), "location"),
            (limited(at_most(2, 0), None), "location"),
            (limited(None, at_most(0, 0)), "location"),
            (
                Location {
                    task: Some(0),
                    ..location(0)
                },
                "taken",
            ),
            (
                Location {
                    task: Some(1),
                    ..location(0)
                },
                "location",
            ),
            (location(2), "automaton"),
            (location(1), "taken"),
            (location(0), "automaton"),
            (location(1), "taken"),
            (location(2), "taken"),
            (location(3), "automaton"),
            (location(255), "automaton"),
        ];
        for (row, expected) in rows {
            assert_eq!(rt; word(draft.add_location(row)), expected);
        }
        let whole = finished(draft).ok_or("not whole")?;
        let held = [
            automaton(&whole, 1),
            automaton(&whole, 2),
            automaton(&whole, 4),
            automaton(&whole, 5),
        ];
        assert_eq!(rt; held, [Some(0), Some(1), Some(2), None]);
        Ok(())
    }

    #[test]
    fn edges_within_one_automaton(rt: HostRuntime) -> Result<(), Fail> {
        let mut draft = small(rt.alloc())?.ok_or("refused")?;
        let rows = [
            (edge(0, 1), "taken"),
            (edge(1, 1), "taken"),
            (edge(2, 2), "taken"),
            (edge(1, 2), "ends"),
            (edge(2, 0), "ends"),
            (edge(0, 3), "ends"),
            (edge(3, 3), "ends"),
            (edge(255, 0), "ends"),
            (labelled(Label::Trigger(1)), "taken"),
            (labelled(Label::Trigger(2)), "edge"),
            (labelled(Label::Send(0)), "taken"),
            (labelled(Label::Send(1)), "edge"),
            (labelled(Label::Receive(0)), "taken"),
            (labelled(Label::Receive(1)), "edge"),
        ];
        for (row, expected) in rows {
            assert_eq!(rt; word(draft.add_edge(row)), expected);
        }
        assert_eq!(rt; finished(draft).ok_or("not whole")?.edges().len(), 6);
        Ok(())
    }

    #[test]
    fn conditions_within_their_limits(rt: HostRuntime) -> Result<(), Fail> {
        let mut draft = small(rt.alloc())?.ok_or("refused")?;
        let rows = [
            (Condition::Clock(2, Relation::Le, 1_000_000_000), "taken"),
            (Condition::Clock(2, Relation::Le, 1_000_000_001), "edge"),
            (Condition::Clock(3, Relation::Le, 0), "edge"),
            (
                Condition::Difference(2, 0, Relation::Lt, 1_000_000_000),
                "taken",
            ),
            (
                Condition::Difference(2, 0, Relation::Lt, 1_000_000_001),
                "edge",
            ),
            (
                Condition::Difference(0, 2, Relation::Ge, -1_000_000_000),
                "taken",
            ),
            (
                Condition::Difference(0, 2, Relation::Ge, -1_000_000_001),
                "edge",
            ),
            (Condition::Difference(3, 0, Relation::Eq, 0), "edge"),
            (Condition::Difference(0, 3, Relation::Eq, 0), "edge"),
            (Condition::Variable(1, Relation::Gt, -32_768), "taken"),
            (Condition::Variable(1, Relation::Lt, 32_767), "taken"),
            (Condition::Variable(2, Relation::Eq, 0), "edge"),
        ];
        for (row, expected) in rows {
            assert_eq!(rt; word(draft.add_edge(guarded(row))), expected);
        }
        assert_eq!(rt; finished(draft).ok_or("not whole")?.edges().len(), 5);
        Ok(())
    }

    #[test]
    fn groups_use_their_first_places(rt: HostRuntime) -> Result<(), Fail> {
        let mut draft = small(rt.alloc())?.ok_or("refused")?;
        let first = Some(Condition::Clock(0, Relation::Ge, 0));
        let one = assign(1, Some(1));
        let rows = [
            (
                Edge {
                    guard: [first; 4],
                    resets: [zero(2); 4],
                    assignments: [one; 4],
                    ..edge(0, 1)
                },
                "taken",
            ),
            (
                Edge {
                    guard: [first, None, first, None],
                    ..edge(0, 1)
                },
                "edge",
            ),
            (
                Edge {
                    resets: [None, zero(0), None, None],
                    ..edge(0, 1)
                },
                "edge",
            ),
            (
                Edge {
                    resets: [zero(0), zero(0), zero(0), zero(3)],
                    ..edge(0, 1)
                },
                "edge",
            ),
            (
                Edge {
                    assignments: [one, one, None, one],
                    ..edge(0, 1)
                },
                "edge",
            ),
            (
                Edge {
                    assignments: [assign(2, None), None, None, None],
                    ..edge(0, 1)
                },
                "edge",
            ),
            (
                Edge {
                    assignments: [assign(0, Some(2)), None, None, None],
                    ..edge(0, 1)
                },
                "edge",
            ),
        ];
        for (row, expected) in rows {
            assert_eq!(rt; word(draft.add_edge(row)), expected);
        }
        assert_eq!(rt; finished(draft).ok_or("not whole")?.edges().len(), 1);
        Ok(())
    }

    #[test]
    fn equal_resets_and_an_own_difference_are_kept(rt: HostRuntime) -> Result<(), Fail> {
        let mut draft = small(rt.alloc())?.ok_or("refused")?;
        let resets = [zero(2), zero(2), None, None];
        let own = Condition::Difference(1, 1, Relation::Eq, 0);
        assert!(rt;
            draft
                .add_edge(Edge {
                    resets,
                    ..guarded(own)
                })
                .is_ok()
        );
        let kept = finished(draft).ok_or("not whole")?.edge(0).ok_or("short")?;
        let [a, b, c, d] = kept.resets;
        assert_eq!(rt;
            [clock(a), clock(b), clock(c), clock(d)],
            [Some(2), Some(2), None, None]
        );
        assert!(rt; is_own_difference(kept.guard[0]) && kept.guard[1].is_none());
        Ok(())
    }

    #[test]
    fn parts_in_their_turn(rt: HostRuntime) -> Result<(), Fail> {
        let mut draft = begun(rt.alloc(), counts(1, 0, 0, 0))?.ok_or("refused")?;
        let early = [
            word(draft.add_edge(edge(0, 0))),
            word(draft.add_task(task(1, 1))),
            word(draft.add_variable(variable(1, 0, 0))),
            word(draft.add_location(location(0))),
        ];
        assert_eq!(rt; early, ["ends", "taken", "turn", "taken"]);
        let late = [
            word(draft.add_variable(variable(0, 0, 0))),
            word(draft.add_task(task(0, 0))),
            word(draft.add_edge(edge(0, 0))),
            word(draft.add_location(location(0))),
        ];
        assert_eq!(rt; late, ["turn", "turn", "taken", "turn"]);
        assert_eq!(rt; held(&finished(draft).ok_or("not whole")?), [0, 1, 1, 1]);
        Ok(())
    }

    #[test]
    fn a_draft_that_is_not_whole_comes_back(rt: HostRuntime) -> Result<(), Fail> {
        let mut draft = begun(rt.alloc(), counts(2, 0, 0, 0))?.ok_or("refused")?;
        assert!(rt; draft.add_location(location(0)).is_ok());
        let mut draft = draft.finish().err().ok_or("automaton 1 has no location")?;
        assert!(rt; draft.add_location(location(1)).is_ok());
        assert!(rt; finished(draft).ok_or("not whole")?.locations().len() == 2);
        Ok(())
    }

    #[test]
    fn full_to_every_limit(rt: HostRuntime) -> Result<(), Fail> {
        let mut draft = begun(rt.alloc(), counts(8, 16, 16, 8))?.ok_or("refused")?;
        for n in 0u8..17 {
            assert_eq!(rt; word(draft.add_variable(variable(0, 0, 0))), room(n, 16));
        }
        for n in 0u8..17 {
            assert_eq!(rt;
                word(draft.add_task(assigning(assign(15, Some(15)), None))),
                room(n, 16)
            );
        }
        for n in 0u8..65 {
            let last = Location {
                task: Some(15),
                invariants: [at_most(15, 0); 2],
                ..location((n / 8).min(7))
            };
            assert_eq!(rt; word(draft.add_location(last)), room(n, 64));
        }
        for n in 0u8..129 {
            let last = Edge {
                label: Label::Trigger(15),
                resets: [zero(15); 4],
                ..edge(63, 56)
            };
            assert_eq!(rt; word(draft.add_edge(last)), room(n, 128));
        }
        let whole = finished(draft).ok_or("not whole")?;
        assert_eq!(rt; held(&whole), [16, 16, 64, 128]);
        assert_eq!(rt; there(&whole, 15, 15, 63, 127), [true; 4]);
        assert_eq!(rt; there(&whole, 16, 16, 64, 128), [false; 4]);
        Ok(())
    }
}
