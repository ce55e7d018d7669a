// Kind 11's nodes beside the two chains: P, Q and O. F of time 1 is the variable v, and Y of the first event come after the variable y.
ghost use Rattle.std.specs.Prelude.{◌≡◌, ◌++◌, ◌+◌, ◌*◌, ◌≤◌, ◌<◌, length, take};
ghost use Rattle.scope.specs.Cnf.{or};
ghost use Rattle.literals.specs.Words.{Holds};
ghost use Rattle.literals.specs.NodeWords.{node_words, nodes_words};
ghost use Rattle.chain_lists.specs.Gap.{soon_gates, late_gates, either_inputs};

use list_nodes::{store_neither, store_run, store_with};
use literals::LAST;

// P of the times 2 to `early`, from the variable after F on.
pub fn store_too_soon(y: u32, early: u32, v: u32, at: usize, out: &mut [u32]) -> usize
    requires { (early ≤ 125) × ((y < 524288) × ((v ≤ 8000001) × (at + 4 * early ≤ length out.old))) }
    ensures holds { Holds out.new result (take at out.old ++ nodes_words (v + early) (soon_gates y early v)) }
    ensures upper_bound { result ≤ at + 4 * early }
{
    let first = v + early;
    let mut k = at;
    for t in 2..early + 1 {
        k = store_with(y + t, v + (t - 1), 1, first + (t - 2), k, out);
    }
    k
}

// Q of the times 1 to `late`, from the variable q on; G of these times are the variables before q, downwards.
pub fn store_too_late(
    lo: u32,
    hi: u32,
    late: u32,
    v: u32,
    q: u32,
    at: usize,
    out: &mut [u32],
) -> usize
    requires { (late ≤ 125) × ((hi ≤ 124) × ((v ≤ 8000001) × ((late ≤ q) × ((q ≤ 9000000) × (at + 4 * late ≤ length out.old))))) }
    ensures holds { Holds out.new result (take at out.old ++ nodes_words q (late_gates lo hi late v q)) }
    ensures value { result ≡ at + 4 * late }
{
    let mut k = at;
    for t in 1..late + 1 {
        let f = v + (t + hi).saturating_sub(lo);
        k = store_neither(f, q - t, q + (t - 1), k, out);
    }
    k
}

// O, after Q from the variable q on; each of the times has one input, and so has each Q.
pub fn store_either_way(
    times: u32,
    y: u32,
    early: u32,
    late: u32,
    v: u32,
    q: u32,
    at: usize,
    out: &mut [u32],
) -> usize
    requires { (times ≤ 125) × ((early ≤ times) × ((late ≤ times) × ((y < 524288) × ((v ≤ 8000001) × ((q ≤ 9000000) × (at + times + late + 2 ≤ length out.old)))))) }
    ensures holds { Holds out.new result (take at out.old ++ node_words (or (either_inputs times y early late v q)) (q + late)) }
    ensures value { result ≡ at + times + late + 2 }
{
    let soon = early.saturating_sub(1);
    out[at] = times + late;
    let a = store_run(y + early + 1, times - early, at + 1, out);
    // F of time 1, where there is one
    let b = store_run(v, early - soon, a, out);
    let c = store_run(v + early, soon, b, out);
    let d = store_run(q, late, c, out);
    out[d] = 2 * (q + late) + 1 + LAST;
    d + 1
}
