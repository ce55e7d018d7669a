// Nodes over a run of variables that follow one another, stored as in node.rt.
ghost use Rattle.std.specs.Prelude.{◌≡◌, ◌++◌, ◌∷◌, [], map, ◌+◌, ◌≤◌, ◌<◌, length, take};
ghost use Rattle.scope.specs.Cnf.{pos, neg, opp, or, and};
ghost use Rattle.literals.specs.Outputs.{every};
ghost use Rattle.literals.specs.Words.{Holds};
ghost use Rattle.literals.specs.NodeWords.{node_words};

use literals::LAST;

// The negated literals of n variables from the first on.
fn negated(first: u32, n: usize, at: usize, out: &mut [u32]) -> usize
    requires { (at + n ≤ length out.old) × (first + n < 1073741824) }
    ensures holds { Holds out.new result (take at out.old ++ map opp (every 1 first n)) }
    ensures value { result ≡ at + n }
{
    for k in 0..n {
        out[at + k] = 2 * (first + k as u32) + 1;
    }
    at + n
}

// The literals of n variables from the first on, as they are.
pub fn store_run(first: u32, n: u32, at: usize, out: &mut [u32]) -> usize
    requires { (at + n ≤ length out.old) × (first + n < 1073741824) }
    ensures holds { Holds out.new result (take at out.old ++ every 1 first n) }
    ensures value { result ≡ at + n }
{
    literals::outputs(first, 1, n as usize, at, out)
}

// The AND with the output o of the run.
pub fn store_all(first: u32, n: usize, o: u32, at: usize, out: &mut [u32]) -> usize
    requires { (n ≤ 126) × ((at + n + 2 ≤ length out.old) × ((first + n < 1073741824) × (o < 1073741824))) }
    ensures holds { Holds out.new result (take at out.old ++ node_words (and (every 1 first n)) o) }
    ensures value { result ≡ at + n + 2 }
{
    out[at] = n as u32;
    let last = negated(first, n, at + 1, out);
    out[last] = 2 * o + LAST;
    last + 1
}

// The OR with the output o of the run.
pub fn store_some(first: u32, n: u32, o: u32, at: usize, out: &mut [u32]) -> usize
    requires { (at + n + 2 ≤ length out.old) × ((first + n < 1073741824) × (o < 1073741824)) }
    ensures holds { Holds out.new result (take at out.old ++ node_words (or (every 1 first n)) o) }
    ensures value { result ≡ at + n + 2 }
{
    out[at] = n;
    let last = store_run(first, n, at + 1, out);
    out[last] = 2 * o + 1 + LAST;
    last + 1
}

// The OR with the output q + 1 of q and of the run, each of it negated.
pub fn store_none(first: u32, n: usize, q: u32, at: usize, out: &mut [u32]) -> usize
    requires { (n ≤ 126) × ((at + n + 3 ≤ length out.old) × ((first + n < 1073741824) × (q + 1 < 1073741824))) }
    ensures holds { Holds out.new result (take at out.old ++ node_words (or (map opp (every 1 first n) ++ pos q ∷ [])) (q + 1)) }
    ensures value { result ≡ at + n + 3 }
{
    out[at] = n as u32 + 1;
    let last = negated(first, n, at + 1, out);
    out[last] = 2 * q;
    out[last + 1] = 2 * (q + 1) + 1 + LAST;
    last + 2
}

// The AND with the output o of the variable x and of the run.
pub fn store_with(x: u32, first: u32, n: usize, o: u32, at: usize, out: &mut [u32]) -> usize
    requires { (n ≤ 126) × ((at + n + 3 ≤ length out.old) × ((x < 1073741824) × ((first + n < 1073741824) × (o < 1073741824)))) }
    ensures holds { Holds out.new result (take at out.old ++ node_words (and (pos x ∷ every 1 first n)) o) }
    ensures value { result ≡ at + n + 3 }
{
    out[at] = n as u32 + 1;
    out[at + 1] = 2 * x + 1;
    let end = negated(first, n, at + 2, out);
    out[end] = 2 * o + LAST;
    end + 1
}

// The AND with the output o of the variable x, of the run, and of the variable after the run, negated.
pub fn store_until(x: u32, first: u32, n: usize, o: u32, at: usize, out: &mut [u32]) -> usize
    requires { (n ≤ 126) × ((at + n + 4 ≤ length out.old) × ((x < 1073741824) × ((first + n < 1073741824) × (o < 1073741824)))) }
    ensures holds { Holds out.new result (take at out.old ++ node_words (and (pos x ∷ every 1 first n ++ neg (first + n) ∷ [])) o) }
    ensures value { result ≡ at + n + 4 }
{
    out[at] = n as u32 + 2;
    out[at + 1] = 2 * x + 1;
    let last = negated(first, n, at + 2, out);
    out[last] = 2 * (first + n as u32);
    out[last + 1] = 2 * o + LAST;
    last + 2
}
