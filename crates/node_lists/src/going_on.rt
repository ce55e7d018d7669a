// What kinds 9 and 10 share: M of a time, whether it goes on with the subevent before it.
ghost use Rattle.std.specs.Prelude.{◌≡◌, ◌+◌, ◌*◌, ◌≤◌, ◌<◌, length};
ghost use Rattle.literals.specs.Variables.{base_of, Within};
ghost use Rattle.literals.specs.Words.{Holds};
ghost use Rattle.literals.specs.NodeWords.{nodes_words};
ghost use Rattle.node_lists.specs.Lengths.{going_gates, on_count};

use list_nodes::store_until;
use literals::LAST;

// M of the times 2 to T + 1 of an event whose S come after the variable s; the first is the variable v.
pub fn store_going_on(times: u32, event: u32, s: u32, v: u32, out: &mut [u32]) -> usize
    requires { Within 125 times × (Within 1024 event × ((s < 524288) × ((v ≤ 8000001) × (length out.old ≡ 34816)))) }
    ensures holds { Holds out.new result (nodes_words v (going_gates times (base_of 0 times event) s)) }
    ensures upper_bound { result ≤ 4 * times }
{
    let y = literals::base(0, times, event);
    let mut at: usize = 0;
    for t in 2..times + 1 {
        at = store_until(y + t, s + t, 0, v + (t - 2), at, out);
    }
    out[at] = 0;
    out[at + 1] = 2 * (v + (times - 1)) + 1 + LAST;
    at + 2
}

// How many of the times from t + a to t + b are up to T + 1, where t is a time.
pub fn on_count(times: u32, t: u32, a: u32, b: u32) -> usize
    requires { Within 125 times × (Within times t × (Within times a × (b ≤ times))) }
    ensures value { result ≡ on_count times t a b }
    ensures upper_bound { result ≤ times }
{
    let last = (t + b).min(times + 1);
    (last + 1).saturating_sub(t + a) as usize
}
