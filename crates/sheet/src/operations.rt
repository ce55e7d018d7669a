// The operations on timetables. They ask nothing of the caller.
ghost use Rattle.std.specs.Prelude.{◌≡◌, ◌*◌, ◌≤◌, length};
ghost use Rattle.scope.specs.Operations.{score_of, same_sheet_of};
ghost use Rattle.scope.specs.Answers.{means};
ghost use Rattle.tables.specs.Room.{group_room};

use instance::read;
use scope::{Infeasibility, Objective, Refusal};
use tables::with_groups;
use verdict::{same_read, score_read};

// The score, with a table for the groups that has the rows that the file may need.
fn score_in(
    file: &[u8],
    table: &[u8],
    groups: &mut [u8],
) -> Result<(Infeasibility, Objective), Refusal>
    requires { group_room file.now * 126 ≤ length groups.old }
    ensures { means result ≡ score_of file.now table.now }
{
    let mut durations = tables::durations();
    let mut resources = tables::resource_rows();
    let mut list = tables::list();
    let head = read(file, &mut durations, &mut resources, groups, &mut list)?;
    score_read(file, table, head, &durations, &resources, groups, &mut list)
}

// Infeasibility and objective of a timetable, or refusals 1 to 6, 10 to 12, 19 and 22. The work is linear in file and timetable, beside one
// turn for each resource, event and time that meet and for each time that a constraint counts.
pub fn score(file: &[u8], table: &[u8]) -> Result<(Infeasibility, Objective), Refusal>
    ensures { means result ≡ score_of file.now table.now }
{
    with_groups(file, |groups| score_in(file, table, groups))
}

// The comparison, with such a table.
fn same_sheet_in(
    file: &[u8],
    first: &[u8],
    second: &[u8],
    groups: &mut [u8],
) -> Result<bool, Refusal>
    requires { group_room file.now * 126 ≤ length groups.old }
    ensures { means result ≡ same_sheet_of file.now first.now second.now }
{
    let mut durations = tables::durations();
    let mut resources = tables::resource_rows();
    let mut list = tables::list();
    let head = read(file, &mut durations, &mut resources, groups, &mut list)?;
    same_read(first, second, head, &durations)
}

// Whether two timetables are the same sheet, or refusals 1 to 6, 10 to 12, 19 and 22.
pub fn same_sheet(file: &[u8], first: &[u8], second: &[u8]) -> Result<bool, Refusal>
    ensures { means result ≡ same_sheet_of file.now first.now second.now }
{
    with_groups(file, |groups| same_sheet_in(file, first, second, groups))
}
