// A constraint's list, by its kind.
ghost use Rattle.constraint.specs.Answers.{kind_of};
ghost use Rattle.user_table.specs.Filled.{users_at};
ghost use Rattle.list.specs.Fillable.{Fillable};
ghost use Rattle.list_nodes.specs.Stored.{list_in, num_of, Stored};
ghost use Rattle.list.specs.ListsOf.{ListsOf};

use chain_lists::{fill_precedence, fill_preferred};
use constraint::{Head, Kind};
use list_nodes::Filled;
use node_lists::{fill_cluster, fill_distribute, fill_idle, fill_lengths};
use plain_lists::{fill_busy, fill_clash, fill_split, fill_spread, fill_unavailable};

// List number t, from 1; its first node is the variable v.
pub fn fill(
    kind: Kind,
    t: u32,
    head: Head,
    durations: &[u8],
    users: &[u16],
    groups: &[u8],
    list: &[u16],
    v: u32,
    out: &mut [u32],
) -> Filled
    requires { Fillable durations.now users.now groups.now list.now head (kind_of list.now kind) t v out.old }
    ensures { Stored (num_of head) (list_in durations.now (users_at users.now) groups.now head (kind_of list.now kind) t) v out.new result }
{
    match kind {
        Kind::Clash(f) => fill_clash(f, t, head, users, out),
        Kind::Unavailable(f) => fill_unavailable(f, head, groups, out),
        Kind::Preferred(f) => fill_preferred(f, head, durations, groups, v, out),
        Kind::Split(f) => fill_split(f, head, out),
        Kind::Spread(f) => fill_spread(f, head, groups, list, out),
        Kind::Busy(f) => fill_busy(f, head, groups, out),
        Kind::Cluster(f) => fill_cluster(f, head, groups, list, v, out),
        Kind::Idle(f) => fill_idle(f, head, groups, list, v, out),
        Kind::Distribute(f) => fill_distribute(f, head, v, out),
        Kind::Lengths(f) => fill_lengths(f, head, v, out),
        Kind::Precedence(f) => fill_precedence(f, head, v, out),
    }
}

// How many lists a constraint has: one for each time for a clash, else one.
pub fn lists(kind: Kind, times: u32) -> u32
    ensures { ListsOf kind times result }
{
    match kind {
        Kind::Clash(_) => times,
        _ => 1,
    }
}
