// Kind 7: an OR of X for each group, whose output is counted.
ghost use Rattle.std.specs.Prelude.{◌≡◌, ◌+◌, ◌≤◌, length};
ghost use Rattle.scope.specs.Kinds.{cluster};
ghost use Rattle.number.specs.Lists.{leading};
ghost use Rattle.constraint.specs.Answers.{counts_in};
ghost use Rattle.constraint.specs.Valid.{InRange};
ghost use Rattle.list_nodes.specs.Ground.{Ground};
ghost use Rattle.list_nodes.specs.Stored.{only_in, num_of, Stored};

use constraint::{Head, OverGroups};
use list_nodes::{Filled, store_group};

// Its first node is the variable v.
pub fn fill_cluster(
    f: OverGroups,
    head: Head,
    groups: &[u8],
    list: &[u16],
    v: u32,
    out: &mut [u32],
) -> Filled
    requires { Ground groups.now head × (InRange (counts_in head) (cluster f.resource (leading f.groups list.now) f.lo f.hi)
        × ((length list.now ≡ 2048) × ((f.groups ≤ 255) × ((v + f.groups ≤ 8000001) × (length out.old ≡ 34816))))) }
    ensures { Stored (num_of head) (only_in groups.now head (cluster f.resource (leading f.groups list.now) f.lo f.hi)) v out.new result }
{
    let l = literals::numbering(head.times, head.events, head.resources);
    let times = head.times;
    let uses = l.uses;
    let resource = f.resource;
    let base = literals::base(uses, times, resource);
    let count = f.groups as usize;
    let mut at: usize = 0;
    for i in 0..count {
        let g = list[i] as u32;
        at = store_group(groups, g, base, v + i as u32, at, out);
    }
    let end = literals::outputs(v, 1, count, at, out);
    Filled {
        nodes: count,
        at,
        end,
    }
}
