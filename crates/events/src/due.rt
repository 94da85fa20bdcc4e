use jobs::job::Job;
use sources::trigger::Trigger;

// What is due in a phase.
#[derive(Clone, Copy)]
pub enum Due {
    LateJob(Job),
    FinishedJob(Job),
    Trigger(Trigger),
    // the foremost open edge and its partner, two numbers as in the line that names them
    OpenEdge(u8, Option<u8>),
    // the lowest present trigger, to close with
    PresentTrigger(u8),
    // the lowest automaton that must not stay
    StuckAutomaton(u8),
}
