// The state that a run starts in.
ghost use Rattle.std.specs.Prelude.{◌≡◌, List, length, take, slice_index_or};
ghost use Rattle.sources.specs.declared.trigger.Trigger.{Trigger};
ghost use Rattle.sequence.specs.Whole.{plan};
ghost use Rattle.runs.specs.State.{lowest, starting_places, starting_values, start};
ghost use Rattle.runs.specs.Values.{no_variable};
ghost use Rattle.machine.specs.Model.{model};

use crate::engine::Engine;
use machine::engine_core::Core;
use parts::part::Variable;
use ready_queue::queue::ReadyQueue;
use runs::event::Phase;
use sequence::whole::Sequence;
use std::array;

// The lowest location of an automaton.
fn lowest_location(sequence: &Sequence, automaton: usize) -> u8
    ensures { result ≡ lowest automaton 0 (plan sequence.now).locations }
{
    sequence
        .locations()
        .iter()
        .position(|l| l.automaton as usize == automaton)
        .unwrap_or(0) as u8
}

fn first_places(sequence: &Sequence) -> [u8; 8]
    ensures long { length result ≡ 8 }
    ensures value { take (plan sequence.now).counts.automata result ≡ starting_places (plan sequence.now).counts.automata 0 (plan sequence.now).locations }
{
    array::from_fn(|a| lowest_location(sequence, a))
}

// What the variable at a place starts with.
fn start_value(variables: &[Variable], place: usize) -> i16
    ensures { result ≡ (slice_index_or variables.now place no_variable).start }
{
    variables.get(place).map_or(0, |v| v.start)
}

fn first_values(sequence: &Sequence) -> [i16; 16]
    ensures long { length result ≡ 16 }
    ensures value { take (length (plan sequence.now).variables) result ≡ starting_values (plan sequence.now).variables }
{
    let variables = sequence.variables();
    array::from_fn(|i| start_value(variables, i))
}

impl Engine {
    // Tick 0: each automaton at its lowest location, all clocks and variables at their start, and nobody waits.
    pub fn new(sequence: Sequence) -> Self
        ensures { (ts : List Trigger) → model ts result.core ≡ start (plan sequence) ts }
    {
        let places = first_places(&sequence);
        let values = first_values(&sequence);
        Engine {
            core: Core {
                sequence,
                now: 0,
                phase: Phase::Late,
                places,
                zeroed: [0; 16],
                values,
                queue: ReadyQueue::new(),
                next: 0,
                present: [false; 16],
                steps: 0,
                ended: false,
            },
        }
    }
}
