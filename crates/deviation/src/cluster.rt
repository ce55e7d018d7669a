// Kind 7: the groups of a list in which a resource is used.
ghost use Rattle.std.specs.Prelude.{◌≡◌, cond, ◌-◌, ◌≤◌, ltb};
ghost use Rattle.scope.specs.Kinds.{cluster};
ghost use Rattle.scope.specs.Score.{any};
ghost use Rattle.number.specs.Lists.{leading};
ghost use Rattle.tables.specs.Rows.{row_at};
ghost use Rattle.constraint.specs.Answers.{counts_in};
ghost use Rattle.constraint.specs.Valid.{InRange};
ghost use Rattle.timetable.specs.Bits.{marks};
ghost use Rattle.deviation.specs.Charge.{MatrixIn, GroupsIn, ListIn, cluster_charge};
ghost use Rattle.deviation.specs.Sums.{total, GroupsListed};

use crate::charge::deviation;
use crate::group::ones_in;
use crate::rows::row_of;
use constraint::{Head, OverGroups};

// 1 for a count above 0.
fn positive(count: u32) -> u32
    ensures { (result ≡ cond (ltb 0 count) 1 0) × (result ≤ 1) }
{
    u32::from(0 < count)
}

// How many of the first n groups of a list have a byte 1. The list stands in a store of fixed size, so its length stands beside it.
fn groups_used(bytes: &[u8], base: usize, groups: &[u8], list: &[u16], n: usize) -> u32
    requires { GroupsListed bytes.now base groups.now list.now n }
    ensures { result ≡ total (λ g. cond (any (marks bytes.now base (row_at groups.now (g - 1)))) 1 0) (leading n list.now) }
{
    let mut sum = 0;
    for k in 0..n {
        let g = list[k] as usize - 1;
        sum += positive(ones_in(bytes, base, groups, g));
    }
    sum
}

pub fn of_cluster(f: OverGroups, head: Head, used: &[u8], groups: &[u8], list: &[u16]) -> u32
    requires { MatrixIn (counts_in head) used.now × (GroupsIn (counts_in head) groups.now
        × (ListIn f.groups list.now × InRange (counts_in head)
        (cluster f.resource (leading f.groups list.now) f.lo f.hi))) }
    ensures { result ≡ cluster_charge head.times used.now groups.now f.resource (leading f.groups list.now) f.lo f.hi }
{
    let base = row_of(f.resource, head.times);
    let n = f.groups as usize;
    let count = groups_used(used, base, groups, list, n);
    deviation(f.lo, f.hi, count)
}
