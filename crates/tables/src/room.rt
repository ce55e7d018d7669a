// How many rows the groups of a file may need: by its first byte.
ghost use Rattle.std.specs.Prelude.{◌≡◌, List, ℕ, ◌*◌, ◌≤◌, length};
ghost use Rattle.std.specs.Fn.{FnOnceTakesAtMut, FnOnceReturnsAtMut};
ghost use Rattle.tables.specs.Room.{dated, group_room};

use crate::store::{group_rows, window_rows};

// Whether it begins with a 0. An empty file does not.
pub fn dated(file: &[u8]) -> bool
    ensures { result ≡ dated file.now }
{
    file.first() == Some(&0)
}

// A step that is lent a table for the groups which has the rows that the file may need.
pub fn with_groups<T, F: FnOnce(&mut [u8]) -> T>(file: &[u8], step: F) -> T
    requires { (groups : List ℕ) → group_room file.now * 126 ≤ length groups → FnOnceTakesAtMut F.FnOnce step groups }
    ensures { (old : List ℕ) × (new : List ℕ) × (group_room file.now * 126 ≤ length old) × FnOnceReturnsAtMut F.FnOnce step old result new }
{
    if dated(file) {
        return step(&mut window_rows());
    }
    step(&mut group_rows())
}
