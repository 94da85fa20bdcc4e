// Jobs, and the orders that say which of two waiting jobs goes first.
#![tactic(auto)]

ghost use Rattle.std.specs.Prelude.{◌≡◌, Some};
ghost use Rattle.jobs.specs.declared.job.Job.{Job};
ghost use Rattle.jobs.specs.declared.job.JobKey.{JobKey};
ghost use Rattle.jobs.specs.Jobs.{key_of, released_job, worked, late};
ghost use Rattle.jobs.specs.Laws.{JobOrder};
ghost use Rattle.jobs.specs.Orders.{fp_before, ed_before, fc_before, hold_before, named_before, policy_before, order_word, unknown_order, Names};
ghost use Rattle.jobs.specs.Preemption.{PreemptsUnlessHeld};
ghost use Rattle.std.proofs.Common.{rules};
ghost use Rattle.jobs.specs.Named.{named_lawful, policy_lawful, policy_orders};

pub mod job;

use job::{Job, JobKey, OrderName, Policy, UnknownOrder};
use precedence::{Keyed, Precedence};
use std::cmp::Reverse;
use std::error::Error;
use std::fmt;

impl Job {
    // A job as its task's release makes it. Jobs know no task: a type for C, D and P would only be unpacked here.
    pub fn released(
        number: u32,
        task: u8,
        cost: u32,
        deadline: u32,
        priority: u8,
        release: u32,
    ) -> Self
        ensures { result ≡ released_job number task cost deadline priority release }
    {
        Job {
            number,
            task,
            cost,
            deadline,
            priority,
            release,
            remaining: cost,
            started: false,
        }
    }

    // The job after one tick of the processor.
    pub fn worked(self) -> Self
        ensures { result ≡ worked self }
    {
        Job {
            remaining: self.remaining.saturating_sub(1),
            started: true,
            ..self
        }
    }

    // Whether more than its deadline has gone since its release.
    pub fn is_late(&self, tick: u32) -> bool
        ensures { result ≡ late tick self.now }
    {
        tick.saturating_sub(self.release) > self.deadline
    }
}

impl Keyed<JobKey> for Job {
    ghost key = { key_of };

    fn order_key(&self) -> JobKey {
        JobKey {
            number: self.number,
            priority: self.priority,
            deadline: self.deadline,
            release: self.release,
            started: self.started,
        }
    }
}

// A policy that says which of two jobs the processor serves first.
pub trait Order: Precedence<JobKey> {
    ghost orders: { (o : Self) → JobOrder (Self.Precedence.before o) };
}

// Fixed priorities: the greater priority first.
#[derive(Clone, Copy)]
pub struct Fp;

impl Precedence<JobKey> for Fp {
    ghost before = { λ _. fp_before };

    ghost lawful = { Prim.search rules };

    fn goes_before(&self, a: &JobKey, b: &JobKey) -> bool {
        (Reverse(a.priority), a.number) < (Reverse(b.priority), b.number)
    }
}

impl Order for Fp {
    ghost orders = { Prim.search rules };
}

// Earliest deadline first.
#[derive(Clone, Copy)]
pub struct Ed;

impl Precedence<JobKey> for Ed {
    ghost before = { λ _. ed_before };

    ghost lawful = { Prim.search rules };

    fn goes_before(&self, a: &JobKey, b: &JobKey) -> bool {
        let x = u64::from(a.release) + u64::from(a.deadline);
        let y = u64::from(b.release) + u64::from(b.deadline);
        (x, a.number) < (y, b.number)
    }
}

impl Order for Ed {
    ghost orders = { Prim.search rules };
}

// First come, first served.
#[derive(Clone, Copy)]
pub struct Fc;

impl Precedence<JobKey> for Fc {
    ghost before = { λ _. fc_before };

    ghost lawful = { Prim.search rules };

    fn goes_before(&self, a: &JobKey, b: &JobKey) -> bool {
        a.number < b.number
    }
}

impl Order for Fc {
    ghost orders = { Prim.search rules };
}

// No preemption: a started job goes before one that is not, otherwise the order below decides.
#[derive(Clone, Copy)]
pub struct Hold<O>(pub O);

impl<O: Precedence<JobKey>> Precedence<JobKey> for Hold<O> {
    ghost before = { λ h. hold_before (O.Precedence.before h.0) };

    ghost lawful = { Prim.search rules };

    fn goes_before(&self, a: &JobKey, b: &JobKey) -> bool {
        if a.started == b.started {
            self.0.goes_before(a, b)
        } else {
            a.started
        }
    }
}

impl<O: Order> Order for Hold<O> {
    ghost orders = { Prim.search rules };
}

// By a match, here and below: which order it is is known only when the program runs, and no `dyn` value is handed out.
impl Precedence<JobKey> for OrderName {
    ghost before = { named_before };

    ghost lawful = { named_lawful };

    fn goes_before(&self, a: &JobKey, b: &JobKey) -> bool {
        match *self {
            OrderName::Fp => Fp.goes_before(a, b),
            OrderName::Ed => Ed.goes_before(a, b),
            OrderName::Fc => Fc.goes_before(a, b),
        }
    }
}

impl Order for OrderName {
    ghost orders = { Prim.search rules };
}

impl Precedence<JobKey> for Policy {
    ghost before = { λ p. policy_before p.hold p.name };

    ghost lawful = { λ p. policy_lawful p.hold p.name };

    fn goes_before(&self, a: &JobKey, b: &JobKey) -> bool {
        if self.hold {
            Hold(self.name).goes_before(a, b)
        } else {
            self.name.goes_before(a, b)
        }
    }
}

impl Order for Policy {
    ghost orders = { λ p. policy_orders p.hold p.name };
}

impl TryFrom<&[u8]> for OrderName {
    type Error = UnknownOrder;

    ghost try_from_gives = { λ word. Names word.now };

    fn try_from(word: &[u8]) -> Result<Self, UnknownOrder> {
        match word {
            b"fp" => Ok(OrderName::Fp),
            b"ed" => Ok(OrderName::Ed),
            b"fc" => Ok(OrderName::Fc),
            _ => Err(UnknownOrder),
        }
    }
}

impl OrderName {
    // The order's word.
    pub fn word(self) -> &'static str
        ensures { result.now ≡ order_word self }
    {
        match self {
            OrderName::Fp => "fp",
            OrderName::Ed => "ed",
            OrderName::Fc => "fc",
        }
    }
}

impl fmt::Display for OrderName {
    ghost output = { λ name. Some (order_word name) };

    fn fmt<W: fmt::Write>(&self, f: &mut fmt::Formatter<W>) -> fmt::Result {
        f.write_str(self.word())
    }
}

impl fmt::Display for UnknownOrder {
    ghost output = { λ _. Some unknown_order };

    fn fmt<W: fmt::Write>(&self, f: &mut fmt::Formatter<W>) -> fmt::Result {
        f.write_str("no order has this word")
    }
}

impl Error for UnknownOrder {}

// A started job gives way to a more urgent one under `fp`, and does not under hold.
pub fn preempts_unless_held()
    ensures { PreemptsUnlessHeld }
{}
