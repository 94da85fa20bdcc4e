// Examples of guards, the search, rows and strides.
#![tactic(auto)]

use guards::valuation::Valuation;
use jobs::Fp;
use jobs::job::{Job, JobKey};
use parts::part::{Assignment, Condition, Edge, Invariant, Label, Location, Relation, Variable};
use ready_queue::queue::ReadyQueue;
use rows::fault::StepFault;
use rows::step::run_step;
use search::view::View;
use sources::trigger::Trigger;
use strides::stride_end;

const LAST: u32 = 1_000_000_000;

// A guard of one condition.
fn when(condition: Condition) -> [Option<Condition>; 4] {
    [Some(condition), None, None, None]
}

// A guard on clock 0.
fn clock(relation: Relation, k: u32) -> [Option<Condition>; 4] {
    when(Condition::Clock(0, relation, k))
}

// A guard on clock 0 less clock 1.
fn apart(relation: Relation, k: i32) -> [Option<Condition>; 4] {
    when(Condition::Difference(0, 1, relation, k))
}

// Clocks by their last zeroings, and no variable.
fn clocks(zeroed: &[u32]) -> Valuation<'_> {
    Valuation {
        zeroed,
        values: &[],
    }
}

// An edge from a location to itself.
fn edge(from: u8, label: Label, guard: [Option<Condition>; 4]) -> Edge {
    Edge {
        from,
        to: from,
        label,
        guard,
        resets: [None, None, None, None],
        assignments: [None, None, None, None],
    }
}

// An edge whose guard always holds.
fn free(from: u8, label: Label) -> Edge {
    edge(from, label, [None, None, None, None])
}

// A location of an automaton, with no invariant.
fn location(automaton: u8) -> Location {
    Location {
        automaton,
        task: None,
        invariants: [None, None],
    }
}

// A location of automaton 0 with an invariant on clock 0.
fn bounded(strict: bool, bound: u32) -> Location {
    Location {
        automaton: 0,
        task: None,
        invariants: [
            None,
            Some(Invariant {
                clock: 0,
                strict,
                bound,
            }),
        ],
    }
}

// Three automata, each at its only location.
fn three() -> [Location; 3] {
    [location(0), location(1), location(2)]
}

// The foremost open edge of three automata at tick 0, with its partner.
fn foremost(edges: &[Edge; 4], present: bool) -> Option<(u8, Option<u8>)> {
    let locations = three();
    let view = View {
        edges,
        locations: &locations,
        places: &[0, 1, 2],
        valuation: clocks(&[0]),
        present: &[present],
        now: 0,
    };
    view.foremost(&[0, 1, 2, 3])
}

// The end of a stride from tick 4 to 100, with clock 0 zeroed at 2.
fn stride<'a>(
    edges: &'a [Edge],
    locations: &'a [Location],
    queue: &ReadyQueue,
    first: Option<Trigger>,
) -> u32 {
    let view = View {
        edges,
        locations,
        places: &[0, 1, 2],
        valuation: clocks(&[2]),
        present: &[false],
        now: 4,
    };
    stride_end(&view, queue, first, 100)
}

// The same, with no job and no trigger.
fn stride_over(edges: &[Edge]) -> u32 {
    stride(edges, &three(), &ReadyQueue::new(), None)
}

// The same, at one location with no edge.
fn stride_at(place: Location) -> u32 {
    stride(&[], &[place], &ReadyQueue::new(), None)
}

// A job released at 4, and one behind it released at 3.
fn two_jobs(cost: u32, deadline: u32, second_deadline: u32) -> ReadyQueue {
    let mut queue = ReadyQueue::new();
    let _ = queue.release(&Fp, Job::released(0, 0, cost, deadline, 9, 4));
    let _ = queue.release(&Fp, Job::released(1, 0, 1, second_deadline, 1, 3));
    queue
}

// What a step on one variable from -5 to 5 that stands at 2 answers, and the variable behind it;
// in words, since the values of the tests stay as they were.
fn step(constant: i16, room: bool) -> (&'static str, i16) {
    let variables = [Variable {
        low: -5,
        high: 5,
        start: 0,
    }];
    let add = [
        Some(Assignment {
            target: 0,
            source: Some(0),
            constant,
        }),
        None,
        None,
        None,
    ];
    let mut values = [2];
    let word = match run_step(&variables, &mut values, &add, &add, room) {
        Ok(()) => "run",
        Err(StepFault::Range) => "range",
        Err(StepFault::Room) => "room",
    };
    (word, values[0])
}

#[cfg(test)]
mod tests {
    use super::*;

    #[test]
    fn guards_behind_a_zeroing(rt: HostRuntime) {
        assert_eq!(rt;
            clocks(&[2]).first_tick(&clock(Relation::Gt, 4), 2),
            Some(7)
        );
        assert_eq!(rt;
            clocks(&[2]).first_tick(&clock(Relation::Ge, 4), 2),
            Some(6)
        );
        assert_eq!(rt;
            clocks(&[2]).first_tick(&clock(Relation::Eq, 4), 2),
            Some(6)
        );
        assert_eq!(rt; clocks(&[2]).first_tick(&clock(Relation::Eq, 4), 7), None);
        assert!(rt; !clocks(&[2]).guard_holds(&clock(Relation::Gt, 4), 6));
        assert!(rt; clocks(&[2]).guard_holds(&clock(Relation::Gt, 4), 7));
        assert!(rt; !clocks(&[2]).guard_holds(&clock(Relation::Eq, 4), 5));
        assert!(rt; clocks(&[2]).guard_holds(&clock(Relation::Eq, 4), 6));
        assert!(rt; !clocks(&[2]).guard_holds(&clock(Relation::Eq, 4), 7));
    }

    #[test]
    fn the_first_and_the_last_tick(rt: HostRuntime) {
        assert_eq!(rt;
            clocks(&[0]).first_tick(&clock(Relation::Le, 0), 0),
            Some(0)
        );
        assert_eq!(rt; clocks(&[0]).first_tick(&clock(Relation::Lt, 0), 0), None);
        assert_eq!(rt;
            clocks(&[0]).first_tick(&clock(Relation::Ge, LAST), 0),
            Some(LAST)
        );
        assert_eq!(rt;
            clocks(&[0]).first_tick(&clock(Relation::Gt, LAST), 0),
            None
        );
        assert_eq!(rt;
            clocks(&[LAST]).first_tick(&clock(Relation::Ge, 0), LAST),
            Some(LAST)
        );
        assert!(rt; clocks(&[0]).guard_holds(&clock(Relation::Eq, LAST), LAST));
    }

    #[test]
    fn negative_differences(rt: HostRuntime) {
        assert!(rt; clocks(&[5, 2]).guard_holds(&apart(Relation::Eq, -3), 9));
        assert!(rt; clocks(&[5, 2]).guard_holds(&apart(Relation::Lt, -2), 9));
        assert!(rt; !clocks(&[5, 2]).guard_holds(&apart(Relation::Lt, -3), 9));
        assert!(rt; !clocks(&[5, 2]).guard_holds(&apart(Relation::Eq, 3), 9));
        assert_eq!(rt;
            clocks(&[5, 2]).first_tick(&apart(Relation::Eq, -3), 9),
            Some(9)
        );
        assert_eq!(rt;
            clocks(&[LAST, 0]).first_tick(&apart(Relation::Eq, -1_000_000_000), LAST),
            Some(LAST)
        );
        assert_eq!(rt;
            clocks(&[5, 2]).first_tick(&apart(Relation::Ge, 0), 9),
            None
        );
    }

    #[test]
    fn the_lowest_fitting_partner(rt: HostRuntime) {
        let edges = [
            free(0, Label::Send(0)),
            free(1, Label::Receive(1)),
            free(2, Label::Receive(0)),
            free(1, Label::Receive(0)),
        ];
        assert_eq!(rt; foremost(&edges, false), Some((0, Some(2))));
    }

    #[test]
    fn sender_first_and_receiver_first(rt: HostRuntime) {
        let sender = [
            free(0, Label::Send(0)),
            free(1, Label::Receive(0)),
            free(2, Label::Send(1)),
            free(2, Label::Send(1)),
        ];
        assert_eq!(rt; foremost(&sender, false), Some((0, Some(1))));
        let receiver = [
            free(0, Label::Receive(0)),
            free(1, Label::Send(0)),
            free(2, Label::Send(1)),
            free(2, Label::Send(1)),
        ];
        assert_eq!(rt; foremost(&receiver, false), Some((0, Some(1))));
    }

    #[test]
    fn no_partner_in_the_same_automaton(rt: HostRuntime) {
        let edges = [
            free(0, Label::Send(0)),
            free(0, Label::Receive(0)),
            free(2, Label::Send(1)),
            free(2, Label::Receive(1)),
        ];
        assert_eq!(rt; foremost(&edges, false), None);
    }

    #[test]
    fn a_trigger_that_is_present_or_not(rt: HostRuntime) {
        let edges = [
            free(0, Label::Send(0)),
            free(1, Label::Trigger(0)),
            free(2, Label::Send(1)),
            free(2, Label::Trigger(1)),
        ];
        assert_eq!(rt; foremost(&edges, true), Some((1, None)));
        assert_eq!(rt; foremost(&edges, false), None);
    }

    #[test]
    fn a_refused_step_leaves_the_row(rt: HostRuntime) {
        assert_eq!(rt; step(1, true), ("run", 4));
        assert_eq!(rt; step(2, true), ("range", 2));
        assert_eq!(rt; step(-4, true), ("range", 2));
        assert_eq!(rt; step(1, false), ("room", 2));
        assert_eq!(rt; step(2, false), ("range", 2));
    }

    #[test]
    fn a_stride_stops_for_jobs(rt: HostRuntime) {
        assert_eq!(rt; stride(&[], &three(), &two_jobs(3, 50, 50), None), 6);
        assert_eq!(rt; stride(&[], &three(), &two_jobs(50, 60, 7), None), 10);
        assert_eq!(rt; stride(&[], &three(), &two_jobs(50, 8, 50), None), 12);
    }

    #[test]
    fn a_stride_stops_for_a_trigger(rt: HostRuntime) {
        let queue = ReadyQueue::new();
        assert_eq!(rt;
            stride(
                &[],
                &three(),
                &queue,
                Some(Trigger {
                    tick: 20,
                    number: 0
                })
            ),
            19
        );
        assert_eq!(rt;
            stride(&[], &three(), &queue, Some(Trigger { tick: 5, number: 0 })),
            4
        );
        assert_eq!(rt; stride(&[], &three(), &queue, None), 100);
    }

    #[test]
    fn a_stride_stops_for_an_edge(rt: HostRuntime) {
        assert_eq!(rt;
            stride_over(&[edge(0, Label::Internal, clock(Relation::Ge, 4))]),
            5
        );
        assert_eq!(rt;
            stride_over(&[edge(0, Label::Internal, clock(Relation::Gt, 4))]),
            6
        );
        assert_eq!(rt;
            stride_over(&[edge(0, Label::Internal, clock(Relation::Le, 2))]),
            100
        );
        assert_eq!(rt;
            stride_over(&[edge(0, Label::Internal, clock(Relation::Le, 3))]),
            4
        );
    }

    #[test]
    fn a_stride_stops_for_a_pair(rt: HostRuntime) {
        let send = edge(0, Label::Send(0), clock(Relation::Ge, 10));
        assert_eq!(rt;
            stride_over(&[send, edge(1, Label::Receive(0), clock(Relation::Ge, 20))]),
            21
        );
        assert_eq!(rt;
            stride_over(&[send, edge(1, Label::Receive(0), clock(Relation::Le, 9))]),
            100
        );
        assert_eq!(rt;
            stride_over(&[send, edge(0, Label::Receive(0), clock(Relation::Ge, 20))]),
            100
        );
    }

    #[test]
    fn waiting_is_quiet(rt: HostRuntime) {
        assert_eq!(rt; stride_over(&[free(0, Label::Trigger(0))]), 100);
        assert_eq!(rt; stride_over(&[free(0, Label::Send(0))]), 100);
        assert_eq!(rt;
            stride_over(&[free(0, Label::Send(0)), free(1, Label::Send(0))]),
            100
        );
    }

    #[test]
    fn a_stride_stops_for_an_invariant(rt: HostRuntime) {
        assert_eq!(rt; stride_at(bounded(false, 8)), 10);
        assert_eq!(rt; stride_at(bounded(true, 8)), 9);
        assert_eq!(rt; stride_at(bounded(true, 0)), 4);
    }

    #[test]
    fn a_stride_ends_at_the_last_tick(rt: HostRuntime) {
        let view = View {
            edges: &[],
            locations: &[],
            places: &[],
            valuation: clocks(&[]),
            present: &[],
            now: LAST - 3,
        };
        assert_eq!(rt; stride_end(&view, &ReadyQueue::new(), None, u32::MAX), LAST);
        assert_eq!(rt;
            stride_end(&view, &ReadyQueue::new(), None, LAST - 1),
            LAST - 1
        );
        assert_eq!(rt; stride_end(&view, &ReadyQueue::new(), None, 0), LAST - 3);
    }
}
