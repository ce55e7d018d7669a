// Kind 2: the uses of a resource at the times of a group.
ghost use Rattle.std.specs.Prelude.{◌≡◌};
ghost use Rattle.scope.specs.Kinds.{unavailable};
ghost use Rattle.constraint.specs.Answers.{counts_in};
ghost use Rattle.constraint.specs.Valid.{InRange};
ghost use Rattle.deviation.specs.Charge.{MatrixIn, GroupsIn, unavailable_charge};

use crate::group::ones_in;
use crate::rows::row_of;
use constraint::{Head, Unavailable};

pub fn of_unavailable(f: Unavailable, head: Head, used: &[u8], groups: &[u8]) -> u32
    requires { MatrixIn (counts_in head) used.now × (GroupsIn (counts_in head) groups.now × InRange (counts_in head) (unavailable f.resource f.group)) }
    ensures { result ≡ unavailable_charge head.times used.now groups.now f.resource f.group }
{
    let base = row_of(f.resource, head.times);
    let g = (f.group - 1) as usize;
    ones_in(used, base, groups, g)
}
