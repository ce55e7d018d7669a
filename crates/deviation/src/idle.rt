// Kind 8: the idle times of a resource in the groups of a list.
ghost use Rattle.std.specs.Prelude.{◌≡◌, ◌-◌, ◌≤◌};
ghost use Rattle.scope.specs.Kinds.{idle};
ghost use Rattle.scope.specs.Idle.{kept_after};
ghost use Rattle.number.specs.Lists.{leading};
ghost use Rattle.tables.specs.Rows.{row_at, RowIn};
ghost use Rattle.constraint.specs.Answers.{counts_in};
ghost use Rattle.constraint.specs.Valid.{InRange};
ghost use Rattle.timetable.specs.Bits.{marks};
ghost use Rattle.deviation.specs.Charge.{MatrixIn, GroupsIn, ListIn, idle_charge};
ghost use Rattle.deviation.specs.Sums.{total, GroupsListed};
ghost use Rattle.deviation.specs.Group.{Inside};

use crate::charge::deviation;
use crate::rows::row_of;
use constraint::{Head, OverGroups};
use idle_step::step;
use scope::Kept;
use tables::{row_len, row_member};

// How many of a group's times are idle: a walk over them, which is nothing but the step.
fn idle_in(bytes: &[u8], base: usize, groups: &[u8], g: usize) -> u32
    requires { RowIn groups.now g × Inside bytes.now base (row_at groups.now g) }
    ensures { (result ≡ (kept_after (marks bytes.now base (row_at groups.now g))).idle) × (result ≤ 125) }
{
    let mut kept = Kept {
        idle: 0,
        since: 0,
        seen: false,
    };
    for k in 0..row_len(groups, g) {
        let t = row_member(groups, g, k) as usize;
        kept = step(kept, bytes[base + (t - 1)] == 1);
    }
    kept.idle as u32
}

// The idle times of the first n groups of a list. It stands in a store of fixed size, so its length stands beside it.
fn groups_idle(bytes: &[u8], base: usize, groups: &[u8], list: &[u16], n: usize) -> u32
    requires { GroupsListed bytes.now base groups.now list.now n }
    ensures { result ≡ total (λ g. (kept_after (marks bytes.now base (row_at groups.now (g - 1)))).idle) (leading n list.now) }
{
    let mut sum = 0;
    for k in 0..n {
        let g = list[k] as usize - 1;
        sum += idle_in(bytes, base, groups, g);
    }
    sum
}

pub fn of_idle(f: OverGroups, head: Head, used: &[u8], groups: &[u8], list: &[u16]) -> u32
    requires { MatrixIn (counts_in head) used.now × (GroupsIn (counts_in head) groups.now
        × (ListIn f.groups list.now × InRange (counts_in head)
        (idle f.resource (leading f.groups list.now) f.lo f.hi))) }
    ensures { result ≡ idle_charge head.times used.now groups.now f.resource (leading f.groups list.now) f.lo f.hi }
{
    let base = row_of(f.resource, head.times);
    let n = f.groups as usize;
    let count = groups_idle(used, base, groups, list, n);
    deviation(f.lo, f.hi, count)
}
