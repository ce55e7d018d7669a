// The groups of a file: those that are written out, and those that the windows of its calendar stand for.
ghost use Rattle.std.specs.Prelude.{◌≡◌, ◌+◌, ◌*◌, ◌≤◌, length};
ghost use Rattle.scope.specs.Calendar.{windows_at};
ghost use Rattle.scope.specs.Instance.{all_groups_at};
ghost use Rattle.parsing.proofs.laws.Parsing.{before};
ghost use Rattle.tables.specs.Rows.{rows};
ghost use Rattle.tables.specs.Room.{group_room};
ghost use Rattle.table_lists.specs.Answers.{said_rows};
ghost use Rattle.windows.specs.Times.{days_in, times_in, Calendared, TimesRead};

use crate::row::window_row;
use crate::window::window_at;
use calendar::{calendar_of, limited_in};
use scope::Parsed;
use table_lists::groups_at;
use tables::dated;

// The windows of a calendar, a row for each after those of the groups; the answer has the number of all rows.
fn windows_at(s: &[u8], at: usize, first: u32, table: &mut [u8]) -> Parsed<u32>
    requires calendared { Calendared s.now }
    requires first_bound { first ≤ 1024 }
    requires in_bounds { 258048 ≤ length table.old }
    ensures { said_rows table.new result ≡ before (rows table.old first) (windows_at (days_in s.now) s.now at) }
{
    let (count, start) = limited_in(s, at, at, 0, 1024)?;
    let days = calendar_of(s, 1);
    let mut next = start;
    for w in 0..count as usize {
        let ((d, from, to), after) = window_at(s, next)?;
        let day = &days[d as usize - 1];
        let base = (first as usize + w) * 126;
        let end = base + 126;
        window_row(day, from, to, &mut table[base..end]);
        next = after;
    }
    let all = first + count;
    Ok((all, next))
}

// The time groups, a row for each, and the windows of a calendar after them; the answer has their number.
pub fn all_groups_at(s: &[u8], at: usize, times: u32, table: &mut [u8]) -> Parsed<u32>
    requires s_in_bounds { group_room s.now * 126 ≤ length table.old }
    requires times_read { TimesRead s.now times }
    ensures { said_rows table.new result ≡ all_groups_at 1024 (times_in s.now) s.now at }
{
    let (count, next) = groups_at(s, at, times, table)?;
    if dated(s) {
        return windows_at(s, next, count, table);
    }
    Ok((count, next))
}
