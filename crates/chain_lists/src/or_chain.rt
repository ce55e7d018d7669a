// A chain of ORs, as kind 11 has two: the first is of a run of variables, each other of one variable more and of the OR before it.
ghost use Rattle.std.specs.Prelude.{◌≡◌, ◌++◌, ◌+◌, ◌-◌, ◌*◌, ◌≤◌, ◌<◌, length, take};
ghost use Rattle.literals.specs.Outputs.{every};
ghost use Rattle.literals.specs.Words.{Holds};
ghost use Rattle.literals.specs.NodeWords.{nodes_words};
ghost use Rattle.chain_lists.specs.Gap.{next_to, stepping, more_gates, chain_gates};

use list_nodes::{store_either, store_some};

// The variable after x, or the one before it.
fn next_to(x: u32, up: bool) -> u32
    requires { x < 1073741824 }
    ensures { result ≡ next_to up x }
{
    if up { x + 1 } else { x.saturating_sub(1) }
}

// The n ORs after the one with the output p; their variables begin with x and go up or down.
fn store_more(x: u32, up: bool, n: u32, p: u32, at: usize, out: &mut [u32]) -> usize
    requires { (x + n < 1073741824) × ((p + n < 1073741824) × (at + 4 * n ≤ length out.old)) }
    ensures holds { Holds out.new result (take at out.old ++ nodes_words (p + 1) (more_gates p (stepping up x n))) }
    ensures value { result ≡ at + 4 * n }
{
    let mut y = x;
    let mut k = at;
    for q in p..p + n {
        k = store_either(y, q, q + 1, k, out);
        y = next_to(y, up);
    }
    k
}

// A chain of n ORs from the variable o on, if any: the run is of `some` variables from the first on, the variables after it begin
// with x.
pub fn store_chain(
    first: u32,
    some: u32,
    x: u32,
    up: bool,
    n: u32,
    o: u32,
    at: usize,
    out: &mut [u32],
) -> usize
    requires { (first + some < 1073741824) × ((x + n < 1073741824) × ((o + n < 1073741824) × (at + some + 2 + 4 * n ≤ length out.old))) }
    ensures holds { Holds out.new result (take at out.old ++ nodes_words o (chain_gates n (every 1 first some) (stepping up x (n - 1)) o)) }
    ensures upper_bound { result ≤ at + some + 2 + 4 * n }
{
    if n == 0 {
        return at;
    }
    let k = store_some(first, some, o, at, out);
    store_more(x, up, n - 1, o, k, out)
}
