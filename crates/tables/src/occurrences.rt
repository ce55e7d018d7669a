// How many rows have each member: for the rows of events, how many events use each resource. One turn for each member.
ghost use Rattle.std.specs.Prelude.{◌≡◌, ℕ, ◌+◌, ◌≤◌, ◌<◌, length, get_or};
ghost use Rattle.tables.specs.Rows.{RowsIn};
ghost use Rattle.tables.specs.Occurrences.{Counted};

use crate::row::{row_len, row_member};

// One more for each member of a row.
fn count_row(table: &[u8], row: usize, counts: &mut [u32])
    requires row_bound { row < 1024 }
    requires rows_in { RowsIn table.now (row + 1) }
    requires counts_len { length counts.old ≡ 256 }
    requires counted { Counted table.now row counts.old }
    ensures { Counted table.now (row + 1) counts.new }
{
    let n = row_len(table, row);
    for k in 0..n {
        let x = usize::from(row_member(table, row, k));
        counts[x] += 1;
    }
}

// The first n rows, into counts that are 0.
pub fn count_members(table: &[u8], n: u32, counts: &mut [u32])
    requires n_bound { n ≤ 1024 }
    requires rows_in { RowsIn table.now n }
    requires counts_len { length counts.old ≡ 256 }
    requires by_index { (x : ℕ) → get_or counts.old x 0 ≡ 0 }
    ensures { Counted table.now n counts.new }
{
    for row in 0..n as usize {
        count_row(table, row, counts);
    }
}
