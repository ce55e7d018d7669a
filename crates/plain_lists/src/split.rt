// Kind 4: S of an event at all times.
ghost use Rattle.std.specs.Prelude.{◌≡◌, [], length};
ghost use Rattle.scope.specs.Kinds.{split};
ghost use Rattle.constraint.specs.Answers.{counts_in};
ghost use Rattle.constraint.specs.Valid.{InRange};
ghost use Rattle.list_nodes.specs.Ground.{Sized};
ghost use Rattle.list_nodes.specs.Stored.{only_in, num_of, Plain};

use constraint::{Head, Split};
use list_nodes::{Filled, plain};

// No group is named.
pub fn fill_split(f: Split, head: Head, out: &mut [u32]) -> Filled
    requires { Sized head × (InRange (counts_in head) (split f.event f.lo f.hi) × (length out.old ≡ 34816)) }
    ensures { Plain (num_of head) (only_in [] head (split f.event f.lo f.hi)) out.new result }
{
    let l = literals::numbering(head.times, head.events, head.resources);
    let n = literals::s_of_event(head.times, l.starts, f.event, out);
    plain(n)
}
