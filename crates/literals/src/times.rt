// The literals of a row of variables at all times and at the times of a group, and whether a time is a member of one. Groups count
// from 1.
ghost use Rattle.std.specs.Prelude.{◌≡◌, ◌+◌, ◌-◌, ◌*◌, ◌≤◌, ◌<◌, ◌++◌, map, length, take, drop};
ghost use Rattle.scope.specs.Kinds.{up_to};
ghost use Rattle.tables.specs.Rows.{row_at, RowIn};
ghost use Rattle.literals.specs.Variables.{literal_at, y_at, in_block, Block, Within, GroupIn};
ghost use Rattle.literals.specs.Words.{Holds, starts_with};

use crate::variable::{base, literal};
use tables::{row_len, row_member};

// The literals of the row after a base, at all times.
fn all_times(base: u32, times: u32, out: &mut [u32]) -> usize
    requires { (base < 524288) × ((times ≤ 125) × (times ≤ length out.old)) }
    ensures { Holds out.new result (map (literal_at base) (up_to times)) }
{
    let most = times as usize;
    for n in 0..most {
        out[n] = literal(base, n as u32 + 1);
    }
    most
}

// The literals of the row after a base at the times of a group, after n words that stay.
pub fn group_times(groups: &[u8], g: u32, base: u32, n: usize, out: &mut [u32]) -> usize
    requires { GroupIn groups.now g × ((base < 524288) × (n + length (row_at groups.now (g - 1)) ≤ length out.old)) }
    ensures { Holds out.new result (take n out.old ++ map (literal_at base) (row_at groups.now (g - 1))) }
{
    let row = (g - 1) as usize;
    let size = row_len(groups, row);
    for k in 0..size {
        out[n + k] = literal(base, u32::from(row_member(groups, row, k)));
    }
    n + size
}

// Whether member k of a row of the table, from 0, is t.
pub fn member_is(groups: &[u8], row: usize, k: usize, t: u32) -> bool
    requires { RowIn groups.now row }
    ensures { result ≡ starts_with t (drop k (row_at groups.now row)) }
{
    if row_len(groups, row) <= k {
        return false;
    }
    u32::from(row_member(groups, row, k)) == t
}

// Y of an event at all times.
pub fn y_of_event(times: u32, e: u32, out: &mut [u32]) -> usize
    requires { (times ≤ 125) × (Within 1024 e × (times ≤ length out.old)) }
    ensures { Holds out.new result (map (y_at times e) (up_to times)) }
{
    let b = base(0, times, e);
    all_times(b, times, out)
}

// S of an event at all times, in the block after `starts` variables.
pub fn s_of_event(times: u32, starts: u32, e: u32, out: &mut [u32]) -> usize
    requires { Block times starts × (Within 1024 e × (times ≤ length out.old)) }
    ensures { Holds out.new result (map (in_block times starts e) (up_to times)) }
{
    let b = base(starts, times, e);
    all_times(b, times, out)
}

// X of a resource at the times of a group, in the block after `uses` variables.
pub fn x_of_group(groups: &[u8], g: u32, times: u32, uses: u32, r: u32, out: &mut [u32]) -> usize
    requires { GroupIn groups.now g × (Block times uses × (Within 1024 r × (125 ≤ length out.old))) }
    ensures { Holds out.new result (map (in_block times uses r) (row_at groups.now (g - 1))) }
{
    let b = base(uses, times, r);
    group_times(groups, g, b, 0, out)
}
