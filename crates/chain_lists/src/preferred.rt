// Kind 3: the times that a subevent that starts outside the group can hold, each with whether one holds it.
ghost use Rattle.std.specs.Prelude.{◌≡◌, [], ◌+◌, ◌-◌, ◌≤◌, length, get_or};
ghost use Rattle.scope.specs.Kinds.{preferred};
ghost use Rattle.constraint.specs.Answers.{counts_in};
ghost use Rattle.constraint.specs.Valid.{InRange};
ghost use Rattle.literals.specs.Variables.{Within};
ghost use Rattle.list_nodes.specs.Ground.{Ground};
ghost use Rattle.list_nodes.specs.Stored.{list_in, num_of, Stored};
ghost use Rattle.chain_lists.specs.Reach.{reach_at, near_after};
ghost use Rattle.chain_lists.specs.Walk.{Room, Went};

use crate::carried::{Walk, carry, carry_or_start};
use constraint::{Head, Preferred};
use list_nodes::{Filled, store_words};
use literals::member_is;

// How many times after its start a subevent can hold: one less than the event's duration.
fn times_after(durations: &[u8], event: u32) -> u32
    requires { (length durations.now ≡ 1024) × Within 1024 event }
    ensures { result ≡ get_or durations.now (event - 1) 0 - 1 }
{
    let at = (event - 1) as usize;
    u32::from(durations[at]).saturating_sub(1)
}

// One time more, in the group where `inside` is true; from a time outside it so many of the next can be reached.
fn pass(w: Walk, after: u32, y: u32, s: u32, t: u32, inside: bool, out: &mut [u32]) -> Walk
    requires { Room w y s t out.old }
    ensures { Went y s (near_after after w.near inside) (reach_at w.near inside t) w out.old result out.new }
{
    if w.near == 0 {
        if inside {
            return w;
        }
        return Walk {
            near: after,
            next: w.next,
            last: s + t,
            at: w.at,
            members: w.members + 1,
        };
    }
    if inside {
        return carry(w, y, s, t, out);
    }
    carry_or_start(w, after, y, s, t, out)
}

// Its first node is the variable v.
pub fn fill_preferred(
    f: Preferred,
    head: Head,
    durations: &[u8],
    groups: &[u8],
    v: u32,
    out: &mut [u32],
) -> Filled
    requires { Ground groups.now head × (InRange (counts_in head) (preferred f.event f.group) × ((length durations.now ≡ 1024)
        × ((length out.old ≡ 34816)
        × (v + length (list_in durations.now (λ r. []) groups.now head (preferred f.event f.group) 1).nodes ≤ 8000001)))) }
    ensures { Stored (num_of head) (list_in durations.now (λ r. []) groups.now head (preferred f.event f.group) 1) v out.new result }
{
    // of fixed size: there is no heap
    let mut members = [0u32; 125];
    let l = literals::numbering(head.times, head.events, head.resources);
    let times = head.times;
    let event = f.event;
    let row = (f.group - 1) as usize;
    let y = literals::base(0, times, event);
    let s = literals::base(l.starts, times, event);
    let after = times_after(durations, event);
    let mut w = Walk {
        near: 0,
        next: v,
        last: v,
        at: 0,
        members: 0,
    };
    let mut k: usize = 0;
    for passed in 0..times {
        let t = passed + 1;
        let inside = member_is(groups, row, k, t);
        let n = w.members;
        w = pass(w, after, y, s, t, inside, out);
        // it stays where the time is a member
        members[n] = 2 * w.last;
        k += usize::from(inside);
    }
    let end = store_words(&members, 0, w.members, w.at, out);
    Filled {
        nodes: (w.next - v) as usize,
        at: w.at,
        end,
    }
}
