// The deviation of a constraint, by its kind. No function looks at the file again.
ghost use Rattle.std.specs.Prelude.{◌≡◌, ◌*◌, ◌≤◌, length};
ghost use Rattle.constraint.specs.Answers.{counts_in, kind_of};
ghost use Rattle.constraint.specs.Valid.{InRange};
ghost use Rattle.deviation.specs.Charge.{SheetIn, charge_of};

use crate::busy::of_busy;
use crate::clash::of_clash;
use crate::cluster::of_cluster;
use crate::distribute::of_distribute;
use crate::idle::of_idle;
use crate::lengths::of_lengths;
use crate::precedence::of_precedence;
use crate::preferred::of_preferred;
use crate::split::of_split;
use crate::spread::of_spread;
use crate::unavailable::of_unavailable;
use constraint::{Head, Kind};

// The deviation of a constraint of any kind. Its list stands in the store.
pub fn deviation_of(
    kind: Kind,
    head: Head,
    bytes: &[u8],
    uses: &[u16],
    used: &[u8],
    groups: &[u8],
    list: &[u16],
) -> u32
    requires { SheetIn (counts_in head) bytes.now uses.now used.now groups.now
        × ((length list.now ≡ 2048) × ((head.groups ≤ 2048) × InRange (counts_in head) (kind_of list.now kind))) }
    ensures { result ≡ charge_of (head.events * head.times) head.times bytes.now uses.now
        used.now groups.now (kind_of list.now kind) }
{
    match kind {
        Kind::Clash(f) => of_clash(f, head, uses),
        Kind::Unavailable(f) => of_unavailable(f, head, used, groups),
        Kind::Preferred(f) => of_preferred(f, head, bytes, groups),
        Kind::Split(f) => of_split(f, head, bytes),
        Kind::Spread(f) => of_spread(f, head, bytes, groups, list),
        Kind::Busy(f) => of_busy(f, head, used, groups),
        Kind::Cluster(f) => of_cluster(f, head, used, groups, list),
        Kind::Idle(f) => of_idle(f, head, used, groups, list),
        Kind::Distribute(f) => of_distribute(f, head, bytes),
        Kind::Lengths(f) => of_lengths(f, head, bytes),
        Kind::Precedence(f) => of_precedence(f, head, bytes),
    }
}
