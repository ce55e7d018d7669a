// Kind 6: X of a resource at the times of a group, as for kind 2.
ghost use Rattle.std.specs.Prelude.{◌≡◌, length};
ghost use Rattle.scope.specs.Kinds.{busy};
ghost use Rattle.constraint.specs.Answers.{counts_in};
ghost use Rattle.constraint.specs.Valid.{InRange};
ghost use Rattle.list_nodes.specs.Ground.{Ground};
ghost use Rattle.list_nodes.specs.Stored.{only_in, num_of, Plain};

use crate::unavailable::fill_unavailable;
use constraint::{Busy, Head, Unavailable};
use list_nodes::Filled;

pub fn fill_busy(f: Busy, head: Head, groups: &[u8], out: &mut [u32]) -> Filled
    requires { Ground groups.now head × (InRange (counts_in head) (busy f.resource f.group f.lo f.hi) × (length out.old ≡ 34816)) }
    ensures { Plain (num_of head) (only_in groups.now head (busy f.resource f.group f.lo f.hi)) out.new result }
{
    let same = Unavailable {
        resource: f.resource,
        group: f.group,
    };
    fill_unavailable(same, head, groups, out)
}
