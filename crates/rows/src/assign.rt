// Assignments on the row of variables.
ghost use Rattle.std.specs.Prelude.{◌≡◌, ◌+ℤ◌, if◌then◌else◌, Some, None, slice_index_or};
ghost use Rattle.runs.specs.Values.{base, no_variable, in_range, assigned_value, assign as assigned, assign_all};
ghost use Rattle.rows.specs.Rows.{GroupRun};

use crate::fault::OutOfRange;
use parts::part::{Assignment, Variable};

// The value of a variable, or 0 where none is named.
pub fn value_of(values: &[i16], variable: Option<u8>) -> i16
    ensures { result ≡ base values.now variable }
{
    variable.map_or(0, |v| values.get(v as usize).copied().unwrap_or(0))
}

// A variable with its range; behind the last one, a variable that is always 0.
fn variable_at(variables: &[Variable], number: u8) -> Variable
    ensures { result ≡ slice_index_or variables.now number no_variable }
{
    let none = Variable {
        low: 0,
        high: 0,
        start: 0,
    };
    variables.get(number as usize).copied().unwrap_or(none)
}

// Whether a value lies in a variable's range.
fn is_in_range(variable: Variable, value: i16) -> bool
    ensures { result ≡ in_range variable value }
{
    variable.low <= value && value <= variable.high
}

// What an assignment gives its variable, where that lies in the variable's range.
pub fn new_value(variables: &[Variable], values: &[i16], assignment: Assignment) -> Option<i16>
    ensures { result ≡ (if in_range (slice_index_or variables.now assignment.target no_variable) (assigned_value values.now assignment) then Some (assigned_value values.now assignment) else None) }
{
    let variable = variable_at(variables, assignment.target);
    let sum = value_of(values, assignment.source).checked_add(assignment.constant)?;
    is_in_range(variable, sum).then_some(sum)
}

// Runs one assignment; none changes nothing. The rows stand apart: the variables are the sequence's and only read, the values
// the engine's.
pub fn assign_one(
    variables: &[Variable],
    assignment: Option<Assignment>,
    values: &mut [i16],
) -> Result<(), OutOfRange>
    ensures { GroupRun (assigned variables.now assignment values.old) values.new result }
{
    let Some(a) = assignment else {
        return Ok(());
    };
    // by place, as `parts::set_item`
    let target = a.target as usize;
    if target >= values.len() {
        return Err(OutOfRange);
    }
    let value = new_value(variables, values, a).ok_or(OutOfRange)?;
    values[target] = value;
    Ok(())
}

// Runs a group of assignments in order, each seeing those before it, up to the first that leaves a range.
pub fn assign_all(
    variables: &[Variable],
    assignments: &[Option<Assignment>],
    values: &mut [i16],
) -> Result<(), OutOfRange>
    ensures { GroupRun (assign_all variables.now assignments.now values.old) values.new result }
{
    // place by place: `assign_one` takes a place as it is
    for assignment in assignments {
        assign_one(variables, *assignment, values)?;
    }
    Ok(())
}
