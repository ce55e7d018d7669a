// How many members a group has.
ghost use Rattle.std.specs.Prelude.{◌≡◌, ◌-◌, length};
ghost use Rattle.tables.specs.Rows.{row_at};
ghost use Rattle.constraint_end.specs.Inner.{GroupIn};

use tables::row_len;

// Groups count from 1.
pub fn group_size(groups: &[u8], group: u32) -> u32
    requires { GroupIn groups.now group }
    ensures { result ≡ length (row_at groups.now (group - 1)) }
{
    let row = (group - 1) as usize;
    let n = row_len(groups, row);
    n as u32
}
