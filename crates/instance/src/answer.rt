// The operation of reading an instance, with stores of its own.
ghost use Rattle.std.specs.Prelude.{◌≡◌, ◌*◌, ◌≤◌, length};
ghost use Rattle.scope.specs.Answers.{means};
ghost use Rattle.scope.specs.Operations.{read_of};
ghost use Rattle.tables.specs.Room.{group_room};

use crate::reader::read;
use scope::{InstanceSize, Refusal};

// What a file holds, with a table for the groups that has the rows that the file may need.
fn read_in(file: &[u8], groups: &mut [u8]) -> Result<InstanceSize, Refusal>
    requires { group_room file.now * 126 ≤ length groups.old }
    ensures { means result ≡ read_of file.now }
{
    let mut durations = tables::durations();
    let mut resources = tables::resource_rows();
    let mut list = tables::list();
    let h = read(file, &mut durations, &mut resources, groups, &mut list)?;
    Ok(InstanceSize {
        times: h.times,
        events: h.events,
        resources: h.resources,
        groups: h.groups,
        constraints: h.constraints,
    })
}

// Accepted, or refusals 1 to 6, 19 and 22. The work is linear in the file.
pub fn read_instance(file: &[u8]) -> Result<InstanceSize, Refusal>
    ensures { means result ≡ read_of file.now }
{
    tables::with_groups(file, |groups| read_in(file, groups))
}
