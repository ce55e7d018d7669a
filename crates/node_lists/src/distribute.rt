// Kind 9: for each time whether a subevent of the length starts there.
ghost use Rattle.std.specs.Prelude.{◌≡◌, ◌++◌, [], ◌+◌, ◌≤◌, ◌<◌, length, take};
ghost use Rattle.scope.specs.Kinds.{distribute};
ghost use Rattle.constraint.specs.Answers.{counts_in};
ghost use Rattle.constraint.specs.Valid.{InRange};
ghost use Rattle.literals.specs.Variables.{Within};
ghost use Rattle.literals.specs.Words.{Holds};
ghost use Rattle.literals.specs.NodeWords.{node_words};
ghost use Rattle.list_nodes.specs.Ground.{Sized};
ghost use Rattle.list_nodes.specs.Stored.{only_in, num_of, Stored};
ghost use Rattle.node_lists.specs.Lengths.{length_gate};

use crate::going_on::store_going_on;
use constraint::{Distribute, Head};
use list_nodes::{Filled, store_until, store_with};

// K of time t, with the output o; S of the event come after the variable s, and M of time 2 is the variable v.
fn store_start(
    times: u32,
    n: u32,
    s: u32,
    v: u32,
    t: u32,
    o: u32,
    at: usize,
    out: &mut [u32],
) -> usize
    requires { Within 125 times × (Within times n × (Within times t × ((s < 524288) × ((v ≤ 8000001) × ((o ≤ 9000000) × (at + 129 ≤ length out.old)))))) }
    ensures holds { Holds out.new result (take at out.old ++ node_words (length_gate times n s v t) o) }
    ensures upper_bound { result ≤ at + 129 }
{
    let first = v + (t - 1);
    if t + n <= times + 1 {
        return store_until(s + t, first, (n - 1) as usize, o, at, out);
    }
    store_with(s + t, first, (times + 1 - t) as usize, o, at, out)
}

// No group is named; its first node is the variable v.
pub fn fill_distribute(f: Distribute, head: Head, v: u32, out: &mut [u32]) -> Filled
    requires { Sized head × (InRange (counts_in head) (distribute f.event f.length f.lo f.hi) × ((v ≤ 8000001) × (length out.old ≡ 34816))) }
    ensures { Stored (num_of head) (only_in [] head (distribute f.event f.length f.lo f.hi)) v out.new result }
{
    let l = literals::numbering(head.times, head.events, head.resources);
    let times = head.times;
    let event = f.event;
    let n = f.length;
    let s = literals::base(l.starts, times, event);
    let mut at = store_going_on(times, event, s, v, out);
    let first = v + times;
    for t in 1..times + 1 {
        at = store_start(times, n, s, v, t, first + (t - 1), at, out);
    }
    let end = literals::outputs(first, 1, times as usize, at, out);
    Filled {
        nodes: 2 * times as usize,
        at,
        end,
    }
}
