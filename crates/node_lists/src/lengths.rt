// Kind 10: for each time whether a subevent of a length outside the two starts there.
ghost use Rattle.std.specs.Prelude.{◌≡◌, ◌++◌, [], ◌+◌, ◌≤◌, ◌<◌, length, take};
ghost use Rattle.scope.specs.Kinds.{lengths};
ghost use Rattle.constraint.specs.Answers.{counts_in};
ghost use Rattle.constraint.specs.Valid.{InRange};
ghost use Rattle.literals.specs.Variables.{Within};
ghost use Rattle.literals.specs.Words.{Holds};
ghost use Rattle.literals.specs.NodeWords.{nodes_words};
ghost use Rattle.list_nodes.specs.Ground.{Sized};
ghost use Rattle.list_nodes.specs.Stored.{only_in, num_of, Stored};
ghost use Rattle.node_lists.specs.Lengths.{outside_gates, outside_count};

use crate::going_on::{on_count, store_going_on};
use constraint::{Head, Lengths};
use list_nodes::{Filled, store_all, store_none, store_with};

// How many nodes a time has beside M.
fn nodes_each(shortest: u32) -> u32
    ensures value { result ≡ outside_count shortest }
    ensures lower_bound { (1 ≤ result) × (result ≤ 3) }
{
    if shortest == 1 { 1 } else { 3 }
}

// These nodes of time t from the variable o on; S of the event come after the variable s, and M of time 2 is the variable v.
fn store_outside(
    times: u32,
    a: u32,
    b: u32,
    s: u32,
    v: u32,
    t: u32,
    o: u32,
    at: usize,
    out: &mut [u32],
) -> usize
    requires { Within 125 times × (Within times a × (Within times b × (Within times t × ((s < 524288) × ((v ≤ 8000001) × ((o ≤ 9000000) × (at + 260 ≤ length out.old))))))) }
    ensures holds { Holds out.new result (take at out.old ++ nodes_words o (outside_gates times a b s v t o)) }
    ensures upper_bound { result ≤ at + 260 }
{
    let on = on_count(times, t, a, b);
    if a == 1 {
        return store_with(s + t, v + (t - 1), on, o, at, out);
    }
    let before = on_count(times, t, 1, a - 1);
    let q = store_all(v + (t + a - 2), on, o, at, out);
    let w = store_none(v + (t - 1), before, o, q, out);
    store_with(s + t, o + 1, 1, o + 2, w, out)
}

// No group is named; its first node is the variable v.
pub fn fill_lengths(f: Lengths, head: Head, v: u32, out: &mut [u32]) -> Filled
    requires { Sized head × (InRange (counts_in head) (lengths f.event f.shortest f.longest) × ((v ≤ 8000001) × (length out.old ≡ 34816))) }
    ensures { Stored (num_of head) (only_in [] head (lengths f.event f.shortest f.longest)) v out.new result }
{
    let l = literals::numbering(head.times, head.events, head.resources);
    let times = head.times;
    let event = f.event;
    let a = f.shortest;
    let b = f.longest;
    let step = nodes_each(a);
    let s = literals::base(l.starts, times, event);
    let mut at = store_going_on(times, event, s, v, out);
    let mut o = v + times;
    for t in 1..times + 1 {
        at = store_outside(times, a, b, s, v, t, o, at, out);
        o += step;
    }
    let end = literals::outputs(v + times + step - 1, step, times as usize, at, out);
    Filled {
        nodes: (o - v) as usize,
        at,
        end,
    }
}
