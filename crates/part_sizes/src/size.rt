// The size of a constraint: its first counted list is filled, and sized by what the store then holds; the others are like it.
ghost use Rattle.std.specs.Prelude.{◌≡◌, length};
ghost use Rattle.constraint.specs.Answers.{constraint_of};
ghost use Rattle.user_table.specs.Filled.{users_at};
ghost use Rattle.list_nodes.specs.Stored.{counted_in, list_in};
ghost use Rattle.part_sizes.specs.Listed.{filled_size, Measurable, ListSized};
ghost use Rattle.part_sizes.specs.Sizable.{Sizable, CountedSized};

use constraint::{Bounds, Constraint, Head, bounds_of};
use list::{fill, lists};
use list_nodes::Filled;
use sizing::Size;
use sizing::counts::list_size;
use sizing::nodes::nodes_size;
use sizing::sums::{multiply, plus};

// A filled list. Each node has a head word and a last word beside its inputs.
fn filled_size(f: Filled, weight: u32, b: Bounds) -> Size
    requires { Measurable weight b f }
    ensures { result ≡ filled_size weight b f }
{
    let inputs = (f.at - 2 * f.nodes) as u64;
    let nodes = nodes_size(f.nodes as u64, inputs);
    let n = (f.end - f.at) as u64;
    let counted = list_size(
        u64::from(weight),
        u64::from(b.lo),
        u64::from(b.hi),
        b.free,
        n,
    );
    plus(nodes, counted)
}

// The first list of a constraint; its size does not depend on its first variable.
fn first_size(
    c: Constraint,
    head: Head,
    durations: &[u8],
    users: &[u16],
    groups: &[u8],
    list: &[u16],
    store: &mut [u32],
) -> Size
    requires { Sizable durations.now users.now groups.now list.now head (constraint_of list.now c) × (length store.old ≡ 34816) }
    ensures { ListSized c.weight (counted_in durations.now (users_at users.now) groups.now head (constraint_of list.now c).kind)
        (list_in durations.now (users_at users.now) groups.now head (constraint_of list.now c).kind 1) result }
{
    let kind = c.kind;
    let f = fill(kind, 1, head, durations, users, groups, list, 1, store);
    let b = bounds_of(kind);
    filled_size(f, c.weight, b)
}

// A constraint, where users is the table of the users of each resource; store is overwritten. Its lists are alike, so one is
// filled for all.
pub fn constraint_size(
    c: Constraint,
    head: Head,
    durations: &[u8],
    users: &[u16],
    groups: &[u8],
    list: &[u16],
    store: &mut [u32],
) -> Size
    requires { Sizable durations.now users.now groups.now list.now head (constraint_of list.now c) × (length store.old ≡ 34816) }
    ensures { CountedSized c.weight (counted_in durations.now (users_at users.now) groups.now head (constraint_of list.now c).kind) result }
{
    let kind = c.kind;
    let most = lists(kind, head.times);
    let one = first_size(c, head, durations, users, groups, list, store);
    multiply(u64::from(most), one)
}
