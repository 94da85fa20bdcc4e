ghost use Rattle.std.specs.Prelude.{◌≡◌, true};
ghost use Rattle.precedence.specs.Sorted.{InOrder};
ghost use Rattle.sources.specs.Lists.{earlier, all_within};

use super::trigger::Trigger;

// Those of the caller's records that are still to come.
#[derive(Clone, Copy)]
pub struct Table<'a> {
    pub(crate) rows: &'a [Trigger],
    ghost ordered: { InOrder earlier rows.now },
    ghost within: { all_within rows.now ≡ true },
}
