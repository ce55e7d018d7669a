// The walk over the constraints of an accepted file: the sizes of the formula and of its tail grow with each.
ghost use Rattle.std.specs.Prelude.{◌≡◌, List, ℕ};
ghost use Rattle.part_sizes.specs.Walked.{Walkable, Tabled, Addable, added, TotalOf};

use crate::size::constraint_size;
use constraint::{Head, constraint_at};
use sizing::Size;
use sizing::rows::tail_add;
use sizing::sums::{nothing, plus};

// The formula without its tail, and the tail.
#[derive(Clone, Copy)]
pub struct Total {
    pub formula: Size,
    pub tail: Size,
}

// One constraint more, of the weight given.
fn add(total: Total, columns: u64, one: Size, weight: u64) -> Total
    requires { Addable total columns one }
    ensures { result ≡ added columns total one weight }
{
    let formula = plus(total.formula, one);
    let tail = tail_add(columns, total.tail, one.units, weight);
    Total { formula, tail }
}

// All constraints, after what stands before them; the tail has so many columns.
pub fn constraints_total(
    file: &[u8],
    head: Head,
    durations: &[u8],
    users: &[u16],
    groups: &[u8],
    list: &mut [u16],
    store: &mut [u32],
    columns: u64,
    before: Size,
) -> Total
    requires { Walkable file.now durations.now users.now groups.now list.old store.old head columns before }
    ensures { (te : List ℕ) → Tabled file.now durations.now te users.now groups.now head
        → TotalOf file.now durations.now te groups.now head columns before result }
{
    let tail = nothing();
    let mut total = Total {
        formula: before,
        tail,
    };
    let mut next = head.start;
    for i in 0..head.constraints {
        // an accepted file has so many constraints, and none is refused
        let Ok((c, after)) = constraint_at(file, next, head, list) else {
            return total;
        };
        let one = constraint_size(c, head, durations, users, groups, list, store);
        total = add(total, columns, one, u64::from(c.weight));
        next = after;
    }
    total
}
