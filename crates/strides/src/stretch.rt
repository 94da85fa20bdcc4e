// The ticks behind `from` up to `to`, to be passed together.
ghost use Rattle.std.specs.Prelude.{◌≡◌, ◌≤◌, min, max};

#[derive(Clone, Copy)]
pub struct Stretch {
    pub from: u32,
    pub to: u32,
    ghost forward: { from ≤ to },
}

// A reach lowered to a tick, but not below where it starts.
pub fn lowered(from: u32, reach: u32, to: u32) -> u32
    ensures { result ≡ min reach (max to from) }
{
    reach.min(to.max(from))
}

impl Stretch {
    // The ticks behind one up to another; none where that one comes earlier.
    pub fn new(from: u32, to: u32) -> Stretch
        ensures from { result.from ≡ from }
        ensures to { result.to ≡ max to from }
    {
        Stretch {
            from,
            to: to.max(from),
        }
    }

    // The stretch up to a tick at most, but not below where it starts.
    pub fn lowered(self, to: u32) -> Stretch
        ensures from { result.from ≡ self.from }
        ensures to { result.to ≡ min self.to (max to self.from) }
    {
        Stretch {
            from: self.from,
            to: lowered(self.from, self.to, to),
        }
    }
}
