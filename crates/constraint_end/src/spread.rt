// Kind 5: the list has the times of the group once for each event.
ghost use Rattle.std.specs.Prelude.{◌≡◌, ◌-◌, ◌*◌, ◌≤◌, length};
ghost use Rattle.tables.specs.Rows.{row_at};
ghost use Rattle.constraint_end.specs.Inner.{GroupIn};

use crate::group::group_size;

pub fn length_of_spread(events: u32, group: u32, groups: &[u8]) -> u32
    requires { (events ≤ 2048) × GroupIn groups.now group }
    ensures { result ≡ events * length (row_at groups.now (group - 1)) }
{
    let n = group_size(groups, group);
    events * n
}
