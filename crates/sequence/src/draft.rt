ghost use Rattle.std.specs.Prelude.{◌≡◌, true};
ghost use Rattle.sequence.specs.Plan.{sound};
ghost use Rattle.sequence.specs.Listed.{plan_at};

use super::lists::Lists;
use parts::part::Counts;

// A sequence that is being built. What is there breaks no limit.
#[derive(Drop)]
pub struct Draft {
    pub(crate) counts: Counts,
    pub(crate) lists: Lists,
    ghost valid: { sound (plan_at counts lists) ≡ true },
}
