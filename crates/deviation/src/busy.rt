// Kind 6: the uses of a resource at the times of a group, where none is free of charge.
ghost use Rattle.std.specs.Prelude.{◌≡◌, cond, eqb};
ghost use Rattle.scope.specs.Kinds.{busy};
ghost use Rattle.scope.specs.Score.{deviation as deviation_of};
ghost use Rattle.constraint.specs.Answers.{counts_in};
ghost use Rattle.constraint.specs.Valid.{InRange};
ghost use Rattle.deviation.specs.Charge.{MatrixIn, GroupsIn, busy_charge};

use crate::charge::deviation;
use crate::group::ones_in;
use crate::rows::row_of;
use constraint::{Busy, Head};

// The deviation of a count, where a count of 0 deviates by 0.
fn deviation_used(lo: u32, hi: u32, count: u32) -> u32
    ensures { result ≡ cond (eqb count 0) 0 (deviation_of lo hi count) }
{
    if count == 0 {
        return 0;
    }
    deviation(lo, hi, count)
}

pub fn of_busy(f: Busy, head: Head, used: &[u8], groups: &[u8]) -> u32
    requires { MatrixIn (counts_in head) used.now × (GroupsIn (counts_in head) groups.now
        × InRange (counts_in head) (busy f.resource f.group f.lo f.hi)) }
    ensures { result ≡ busy_charge head.times used.now groups.now f.resource f.group f.lo f.hi }
{
    let base = row_of(f.resource, head.times);
    let g = (f.group - 1) as usize;
    let count = ones_in(used, base, groups, g);
    deviation_used(f.lo, f.hi, count)
}
