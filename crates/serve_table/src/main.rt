// Serves a table of releases on one processor, tick by tick, and prints which job worked when.
#![tactic(auto)]

ghost use Rattle.std.specs.Prelude.{◌≡◌};
ghost use Rattle.serve_table.specs.Rows.{Checks};

mod row;

use jobs::Order;
use jobs::job::{Job, OrderName, Policy};
use ready_queue::queue::{QueueFull, ReadyQueue};
use row::{Fault, Row};
use std::error::Error;
use std::ops::ControlFlow;
use std::{fmt, io};

const LAST_TICK: u32 = 1_000_000_000;

const LONGEST: u32 = 1_000_000;

impl fmt::Display for Fault {
    fn fmt<W: fmt::Write>(&self, f: &mut fmt::Formatter<W>) -> fmt::Result {
        let text = match *self {
            Fault::Order => "expected order=fp, order=ed or order=fc",
            Fault::Hold => "expected hold=yes or hold=no",
            Fault::Fields => "expected four fields: release,C,D,P",
            Fault::Number => "a field is not a number",
            Fault::Release => "the release is after tick 1000000000",
            Fault::Cost => "C is 0",
            Fault::Deadline => "D is below C or over 1000000",
            Fault::Priority => "P is over 255",
            Fault::Falls => "the release is before that of the line above",
        };
        write!(f, "{text}")
    }
}

// A row within the limits, or the first limit that it breaks. The five numbers meet nowhere else, so they have no type of their own.
fn checked_row(
    last: u32,
    release: u32,
    cost: u32,
    deadline: u32,
    priority: u32,
) -> Result<Row, Fault>
    ensures { Checks last release cost deadline priority result }
{
    if release > LAST_TICK {
        return Err(Fault::Release);
    }
    if cost == 0 {
        return Err(Fault::Cost);
    }
    if deadline < cost || deadline > LONGEST {
        return Err(Fault::Deadline);
    }
    let priority = u8::try_from(priority).map_err(|_| Fault::Priority)?;
    if release < last {
        return Err(Fault::Falls);
    }
    Ok(Row {
        release,
        cost,
        deadline,
        priority,
    })
}

fn number(text: &str) -> Result<u32, Fault> {
    text.parse::<u32>().map_err(|_| Fault::Number)
}

fn read_row(last: u32, line: &str) -> Result<Row, Fault> {
    let mut fields = line.split(',');
    let (Some(release), Some(cost), Some(deadline), Some(priority), None) = (
        fields.next(),
        fields.next(),
        fields.next(),
        fields.next(),
        fields.next(),
    ) else {
        return Err(Fault::Fields);
    };
    checked_row(
        last,
        number(release)?,
        number(cost)?,
        number(deadline)?,
        number(priority)?,
    )
}

// A run: the jobs that wait, the tick, the rows to come, how many were released and done, and the job that works since a tick.
#[derive(Clone, Copy)]
struct Run<'a> {
    queue: ReadyQueue,
    now: u32,
    to_come: &'a [Row],
    released: usize,
    done: u32,
    working: Option<(u32, u32)>,
}

impl<'a> Run<'a> {
    fn new(rows: &'a [Row]) -> Self {
        Run {
            queue: ReadyQueue::new(),
            now: 0,
            to_come: rows,
            released: 0,
            done: 0,
            working: None,
        }
    }

    // Prints the stretch of ticks in which one job worked, if there is one.
    fn close_stretch(&mut self, rt: &HostRuntime) -> io::Result<()> {
        if let Some((from, job)) = self.working.take() {
            let to = self.now;
            println!(rt; "ticks {from} to {to}: job {job} works")?;
        }
        Ok(())
    }

    // Prints what happens to a job in this tick, behind the stretch that it ends.
    fn report(&mut self, rt: &HostRuntime, job: &Job, what: &str) -> io::Result<()> {
        self.close_stretch(rt)?;
        let tick = self.now;
        let number = job.number;
        println!(rt; "tick {tick}: job {number} {what}")
    }

    // A first job with nothing remaining is done and leaves.
    fn finish(&mut self, rt: &HostRuntime) -> io::Result<()> {
        if let Some(job) = self.queue.first().filter(|j| j.remaining == 0) {
            let _ = self.queue.remove_first();
            self.report(rt, &job, "done")?;
            self.done = self.done.saturating_add(1);
        }
        Ok(())
    }

    // Releases the rows of this tick; a job that finds no place ends the run.
    fn release<O: Order>(&mut self, rt: &HostRuntime, order: &O) -> io::Result<ControlFlow<()>> {
        while let [row, later @ ..] = self.to_come {
            if row.release != self.now {
                break;
            }
            let Ok(number) = u32::try_from(self.released) else {
                return Ok(ControlFlow::Break(()));
            };
            let job = Job::released(number, 0, row.cost, row.deadline, row.priority, row.release);
            if let Err(QueueFull(job)) = self.queue.release(order, job) {
                self.report(rt, &job, "finds 32 jobs waiting")?;
                return Ok(ControlFlow::Break(()));
            }
            self.to_come = later;
            self.released = self.released.saturating_add(1);
        }
        Ok(ControlFlow::Continue(()))
    }

    // One tick of the processor, or a leap to the next release where nobody waits, if anything is left to do.
    fn pass(&mut self, rt: &HostRuntime) -> io::Result<ControlFlow<()>> {
        if self.now >= LAST_TICK {
            return Ok(ControlFlow::Break(()));
        }
        match (self.queue.serve(), self.to_come.first()) {
            (Some(job), _) => {
                if !self.working.is_some_and(|(_, number)| number == job.number) {
                    self.close_stretch(rt)?;
                    self.working = Some((self.now, job.number));
                }
                self.now = self.now.saturating_add(1);
            }
            (None, Some(row)) => self.now = row.release,
            (None, None) => return Ok(ControlFlow::Break(())),
        }
        Ok(ControlFlow::Continue(()))
    }

    // One tick: late, finish, release, work. It breaks where the run is over.
    fn tick<O: Order>(&mut self, rt: &HostRuntime, order: &O) -> io::Result<ControlFlow<()>> {
        if let Some(job) = self.queue.first_late(self.now) {
            self.report(rt, &job, "late")?;
            return Ok(ControlFlow::Break(()));
        }
        self.finish(rt)?;
        if self.release(rt, order)?.is_break() {
            return Ok(ControlFlow::Break(()));
        }
        self.pass(rt)
    }
}

// Serves the whole table.
fn serve<O: Order>(rt: &HostRuntime, order: &O, rows: &[Row]) -> io::Result<()> {
    let mut run = Run::new(rows);
    for _ in 0..=2 * LAST_TICK {
        if run.tick(rt, order)?.is_break() {
            break;
        }
    }
    run.close_stretch(rt)?;
    let tick = run.now;
    let done = run.done;
    let waiting = run.queue.len();
    println!(rt; "tick {tick}: end, {done} done, {waiting} waiting")
}

// What the input asks for.
#[derive(Drop)]
struct Plan {
    policy: Policy,
    rows: Vec<Row>,
}

// Why the input gives no plan: the first line that cannot be used, or a failed read, or a want of memory.
// `merge_triggers` has the like over its own faults: a crate for both would be longer.
#[derive(Drop)]
enum InputError {
    Bad(usize, Fault),
    Other(anyhow::Error),
}

impl<E: Error> From<E> for InputError {
    fn from(e: E) -> InputError {
        InputError::Other(e.into())
    }
}

fn read_order(line: &str) -> Result<OrderName, Fault> {
    let word = line.strip_prefix("order=").ok_or(Fault::Order)?;
    OrderName::try_from(word.as_bytes()).map_err(|_| Fault::Order)
}

fn read_hold(line: &str) -> Result<bool, Fault> {
    match line {
        "hold=yes" => Ok(true),
        "hold=no" => Ok(false),
        _ => Err(Fault::Hold),
    }
}

fn read_plan(rt: &HostRuntime) -> Result<Plan, InputError> {
    let mut lines = rt.lines(rt.alloc());
    let line = lines.next().ok_or(InputError::Bad(1, Fault::Order))?;
    let name = read_order(line?.as_str()).map_err(|f| InputError::Bad(1, f))?;
    let line = lines.next().ok_or(InputError::Bad(2, Fault::Hold))?;
    let hold = read_hold(line?.as_str()).map_err(|f| InputError::Bad(2, f))?;
    let mut rows = Vec::new(rt.alloc());
    let mut last = 0;
    for (i, line) in lines.enumerate() {
        let line = line?;
        let n = i.saturating_add(3);
        let row = read_row(last, line.as_str()).map_err(|f| InputError::Bad(n, f))?;
        last = row.release;
        rows.push(row)?;
    }
    let policy = Policy { name, hold };
    Ok(Plan { policy, rows })
}

fn run_plan(rt: &HostRuntime, plan: &Plan) -> io::Result<()> {
    let Policy { name, hold } = plan.policy;
    let hold = if hold { "yes" } else { "no" };
    let jobs = plan.rows.len();
    println!(rt; "order {name}, hold {hold}, {jobs} jobs")?;
    serve(rt, &plan.policy, &plan.rows)
}

fn main(rt: HostRuntime) -> anyhow::Result<()> {
    match read_plan(&rt) {
        Ok(plan) => run_plan(&rt, &plan)?,
        Err(InputError::Bad(line, fault)) => println!(rt; "refused: line {line}: {fault}")?,
        Err(InputError::Other(e)) => return Err(e),
    }
    Ok(())
}
