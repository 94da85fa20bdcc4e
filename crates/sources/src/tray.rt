ghost use Rattle.std.specs.Prelude.{◌≡◌, true};
ghost use Rattle.precedence.specs.Bounded.{records};
ghost use Rattle.precedence.specs.Sorted.{InOrder};
ghost use Rattle.sources.specs.Lists.{earlier, all_within};

use super::trigger::Trigger;
use precedence::bounded::BoundedList;

// At most 32 triggers, in the order in which they are given.
#[derive(Clone, Copy)]
pub struct Tray {
    pub(crate) triggers: BoundedList<Trigger, 32>,
    ghost ordered: { InOrder earlier (records triggers) },
    ghost within: { all_within (records triggers) ≡ true },
}
