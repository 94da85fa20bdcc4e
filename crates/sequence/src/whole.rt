ghost use Rattle.std.specs.Prelude.{◌≡◌, true};
ghost use Rattle.sequence.specs.Plan.{complete};
ghost use Rattle.sequence.specs.Model.{plan_of};

use super::draft::Draft;

// A sequence: it breaks no limit, and every automaton has a location.
#[derive(Drop)]
pub struct Sequence {
    pub(crate) draft: Draft,
    ghost whole: { complete (plan_of draft) ≡ true },
}
