// Looking at a row of a table. Rows count from 0.
ghost use Rattle.std.specs.Prelude.{◌≡◌, ◌+◌, ◌*◌, ◌≤◌, ◌<◌, length, get_or};
ghost use Rattle.tables.specs.Rows.{row_at, RowIn};

// How many members it has.
pub fn row_len(table: &[u8], row: usize) -> usize
    requires { row * 126 + 126 ≤ length table.now }
    ensures { result ≡ length (row_at table.now row) }
{
    let at = row * 126;
    usize::from(table[at])
}

// Its member number k, from 0.
pub fn row_member(table: &[u8], row: usize, k: usize) -> u8
    requires row_in { RowIn table.now row }
    requires k_in_bounds { k < length (row_at table.now row) }
    ensures { result ≡ get_or (row_at table.now row) k 0 }
{
    let at = row * 126 + 1 + k;
    table[at]
}
