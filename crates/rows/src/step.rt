// The assignments of a whole step or a finished task: all of them run, or the row stays as it was.
ghost use Rattle.std.specs.Prelude.{◌≡◌, ◌<◌, ◌≤◌, length, take, MatchOption};
ghost use Rattle.runs.specs.Values.{assign_all};
ghost use Rattle.rows.specs.declared.fault.StepFault.TheVariants.{Range};
ghost use Rattle.rows.specs.Rows.{assign_both, StepRun, TaskRun, SidesInOrder};

use crate::assign::assign_all;
use crate::fault::{OutOfRange, StepFault};
use parts::part::{Assignment, Variable};

// No sequence has more variables.
const MOST_VALUES: usize = 16;

impl From<OutOfRange> for StepFault {
    ghost from_gives = { λ _ r. r ≡ Range };

    fn from(_: OutOfRange) -> Self {
        Self::Range
    }
}

// The row of variables, put back when the guard ends unless the whole step was accepted.
struct RowGuard<'a> {
    row: &'a mut [i16],
    // what is put back; none once the whole step was accepted
    old: Option<[i16; MOST_VALUES]>,
}

impl Drop for RowGuard<'_> {
    // The bound is asked of whoever makes a guard, which only `run_step` does: `saved` refuses a longer row.
    fn drop(self)
        requires { length self.row.now ≤ 16 }
        ensures { MatchOption self.entry.old (self.exit.0.now ≡ self.entry.row.now) (λ old. self.exit.0.now ≡ take (length self.entry.row.now) old) }
    {
        let RowGuard { row, old } = self;
        if let Some(old) = old {
            let n = row.len();
            row[..n].copy_from_slice(&old[..n]);
        }
    }
}

// A copy of a row; none of a row that is too long.
fn saved(row: &[i16]) -> Option<[i16; MOST_VALUES]>
    ensures { MatchOption result (16 < length row.now) (λ old. (length row.now ≤ 16) × (take (length row.now) old ≡ row.now)) }
{
    let len = row.len();
    if len > MOST_VALUES {
        return None;
    }
    let mut old = [0; MOST_VALUES];
    old[..len].copy_from_slice(row);
    Some(old)
}

// The assignments of a step: the first side's, then the second's, each seeing those before it. Refused where one of them
// leaves a range, and else where the step's jobs have no room; then the row is as it was. A row that is too long is
// refused as out of range.
pub fn run_step(
    variables: &[Variable],
    values: &mut [i16],
    first: &[Option<Assignment>],
    second: &[Option<Assignment>],
    room: bool,
) -> Result<(), StepFault>
    ensures { StepRun room (assign_both variables.now first.now second.now values.old) values.old values.new result }
{
    let old = saved(values).ok_or(StepFault::Range)?;
    let mut guard = RowGuard {
        row: values,
        old: Some(old),
    };
    assign_all(variables, first, guard.row)?;
    assign_all(variables, second, guard.row)?;
    if !room {
        return Err(StepFault::Room);
    }
    guard.old = None;
    Ok(())
}

// The assignments of a task whose job is done, as a whole or not at all. No caller today: its promise is
// public and stays; the engine's goes by `run_step`.
pub fn finish_assignments(
    variables: &[Variable],
    values: &mut [i16],
    assignments: &[Option<Assignment>],
) -> Result<(), OutOfRange>
    ensures { TaskRun (assign_all variables.now assignments.now values.old) values.old values.new result }
{
    run_step(variables, values, assignments, &[], true).map_err(|_| OutOfRange)
}

// The assignments of a step's edges are those of one side, or of two, the sender's first.
pub fn sides_in_order()
    ensures { SidesInOrder }
{}
