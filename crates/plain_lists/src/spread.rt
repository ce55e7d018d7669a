// Kind 5: S of some events at the times of a group, event by event.
ghost use Rattle.std.specs.Prelude.{◌≡◌, ◌-◌, ◌*◌, ◌≤◌, length};
ghost use Rattle.scope.specs.Kinds.{spread};
ghost use Rattle.number.specs.Lists.{leading};
ghost use Rattle.tables.specs.Rows.{row_at};
ghost use Rattle.constraint.specs.Answers.{counts_in};
ghost use Rattle.constraint.specs.Valid.{InRange};
ghost use Rattle.list_nodes.specs.Ground.{Ground};
ghost use Rattle.list_nodes.specs.Stored.{only_in, num_of, Plain};

use constraint::{Head, Spread};
use list_nodes::{Filled, plain};

pub fn fill_spread(f: Spread, head: Head, groups: &[u8], list: &[u16], out: &mut [u32]) -> Filled
    requires { Ground groups.now head × (InRange (counts_in head) (spread (leading f.events list.now) f.group f.lo f.hi)
        × ((length list.now ≡ 2048) × ((f.events * length (row_at groups.now (f.group - 1)) ≤ 255) × (length out.old ≡ 34816)))) }
    ensures { Plain (num_of head) (only_in groups.now head (spread (leading f.events list.now) f.group f.lo f.hi)) out.new result }
{
    let l = literals::numbering(head.times, head.events, head.resources);
    let n = f.events as usize;
    let k = literals::s_spread(&list[..n], groups, f.group, head.times, l.starts, out);
    plain(k)
}
