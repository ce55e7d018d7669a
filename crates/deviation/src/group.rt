// Counts over the times of a group: one turn for each member.
ghost use Rattle.std.specs.Prelude.{◌≡◌, ◌≤◌};
ghost use Rattle.scope.specs.Score.{trues};
ghost use Rattle.tables.specs.Rows.{row_at, RowIn};
ghost use Rattle.timetable.specs.Bits.{marks};
ghost use Rattle.deviation.specs.Group.{Inside};

use resource_uses::bit_of;
use tables::{row_len, row_member};

// How many of a group's times have a byte 1. The bytes of time 1 and on begin at base.
pub fn ones_in(bytes: &[u8], base: usize, groups: &[u8], g: usize) -> u32
    requires { RowIn groups.now g × Inside bytes.now base (row_at groups.now g) }
    ensures { (result ≡ trues (marks bytes.now base (row_at groups.now g))) × (result ≤ 125) }
{
    let mut count = 0;
    for k in 0..row_len(groups, g) {
        let t = row_member(groups, g, k) as usize;
        count += bit_of(bytes[base + (t - 1)]);
    }
    count
}
