// The laws of service: each function names a law over runs that is proved.
#![tactic(auto)]

ghost use Rattle.service.specs.Examples.{ServiceFacts};
ghost use Rattle.service.specs.Work.{TheRightJobWorks, WorksOnlyBetween, DoneMeansExactlyCWithinD};
ghost use Rattle.service.specs.Jobs.{JobsGoOn};
ghost use Rattle.service.specs.Bounds.{NothingLeavesItsBounds};

// In each tick that passes, the waiting job that no other goes before works, if any waits, and only it.
pub fn the_right_job_works()
    ensures { TheRightJobWorks }
{}

// A job with a done line worked exactly C ticks, and is done within D of its release.
pub fn done_means_exactly_c_within_d()
    ensures { DoneMeansExactlyCWithinD }
{}

// Jobs, steps, variables, time, job numbers and clocks stay in their bounds at every point of every run.
pub fn nothing_leaves_its_bounds()
    ensures { NothingLeavesItsBounds }
{}

// A job works in no tick before its release or after it is done.
pub fn works_only_between()
    ensures { WorksOnlyBetween }
{}

// A preempted job goes on where it was; a job's C, D, P and release tick never change.
pub fn jobs_go_on()
    ensures { JobsGoOn }
{}

// The worked facts about deadlines, releases, a task's assignments, and one whole run.
pub fn service_facts()
    ensures { ServiceFacts }
{}
