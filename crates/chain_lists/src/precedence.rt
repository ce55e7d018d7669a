// Kind 11: whether the gap between two events lies outside lo to hi. O is counted, the last node.
ghost use Rattle.std.specs.Prelude.{◌≡◌, [], ◌≤◌, length};
ghost use Rattle.scope.specs.Kinds.{precedence};
ghost use Rattle.constraint.specs.Answers.{counts_in};
ghost use Rattle.constraint.specs.Valid.{InRange};
ghost use Rattle.list_nodes.specs.Ground.{Sized};
ghost use Rattle.list_nodes.specs.Stored.{only_in, num_of, Stored};

use crate::gap_nodes::{store_either_way, store_too_late, store_too_soon};
use crate::or_chain::store_chain;
use constraint::{Head, Precedence};
use list_nodes::{Filled, store_run};

// No group is named; its first node is the variable v.
pub fn fill_precedence(f: Precedence, head: Head, v: u32, out: &mut [u32]) -> Filled
    requires { Sized head × (InRange (counts_in head) (precedence f.first f.second f.lo f.hi) × ((v ≤ 8000001) × (length out.old ≡ 34816))) }
    ensures { Stored (num_of head) (only_in [] head (precedence f.first f.second f.lo f.hi)) v out.new result }
{
    let times = head.times;
    let lo = f.lo;
    let hi = f.hi;
    let y = literals::base(0, times, f.first);
    let z = literals::base(0, times, f.second);
    let early = times.saturating_sub(lo + 1);
    let late = times.saturating_sub(hi + 2);
    // the first variables of G and of Q, and the variable of O
    let g = v + early + early.saturating_sub(1);
    let q = g + late;
    let o = q + late;
    let nodes = (o + 1 - v) as usize;
    let a = store_chain(z + 1, lo + 1, z + lo + 2, true, early, v, 0, out);
    let b = store_too_soon(y, early, v, a, out);
    let c = store_chain(y + late + 1, times - late, y + late, false, late, g, b, out);
    let d = store_too_late(lo, hi, late, v, q, c, out);
    let at = store_either_way(times, y, early, late, v, q, d, out);
    let end = store_run(o, 1, at, out);
    Filled { nodes, at, end }
}
