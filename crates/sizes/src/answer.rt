// The operation of sizing, with stores of its own.
ghost use Rattle.std.specs.Prelude.{◌≡◌, ◌*◌, ◌≤◌, length};
ghost use Rattle.scope.specs.Answers.{means};
ghost use Rattle.scope.specs.Operations.{sizes_of};
ghost use Rattle.tables.specs.Room.{group_room};

use crate::sized::measure_bound;
use scope::{FormulaSize, Refusal};

// The sizes, with a table for the groups that has the rows that the file may need.
fn sizes_in(file: &[u8], bound: u64, groups: &mut [u8]) -> Result<FormulaSize, Refusal>
    requires { group_room file.now * 126 ≤ length groups.old }
    ensures { means result ≡ sizes_of file.now bound }
{
    let mut durations = tables::durations();
    let mut resources = tables::resource_rows();
    let mut list = tables::list();
    let (_, _, z) = measure_bound(
        file,
        bound,
        &mut durations,
        &mut resources,
        groups,
        &mut list,
    )?;
    Ok(z)
}

// What stores the hard clauses and the tail need, or refusals 1 to 8, 19 and 22. One list of each constraint is filled, and no clause is written.
pub fn sizes(file: &[u8], bound: u64) -> Result<FormulaSize, Refusal>
    ensures { means result ≡ sizes_of file.now bound }
{
    tables::with_groups(file, |groups| sizes_in(file, bound, groups))
}
