ghost use Rattle.std.specs.Prelude.{◌≡◌};
ghost use Rattle.rows.specs.Rows.{step_cause};

use runs::event::Cause;

// Why a step is refused.
#[derive(Clone, Copy)]
pub enum StepFault {
    // an assignment leaves the range of its variable
    Range,
    // its jobs find no room
    Room,
}

// An assignment leaves the range of its variable.
#[derive(Clone, Copy)]
pub struct OutOfRange;

impl From<StepFault> for Cause {
    ghost from_gives = { λ fault cause. cause ≡ step_cause fault };

    fn from(fault: StepFault) -> Self {
        match fault {
            StepFault::Range => Self::EdgeRange,
            StepFault::Room => Self::Overload,
        }
    }
}
