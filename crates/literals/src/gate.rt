// The literals of gates' outputs that a list counts.
ghost use Rattle.std.specs.Prelude.{◌+◌, ◌*◌, ◌≤◌, ◌<◌, ◌++◌, length, take};
ghost use Rattle.literals.specs.Words.{Holds};
ghost use Rattle.literals.specs.Outputs.{every};

// Of n variables, each so many after the one before it, after `at` words that stay: 1 for the groups of a cluster, 3 for idle times.
pub fn outputs(first: u32, step: u32, n: usize, at: usize, out: &mut [u32]) -> usize
    requires { (at + n ≤ length out.old) × (first + step * n < 2147483648) }
    ensures { Holds out.new result (take at out.old ++ every step first n) }
{
    let mut v = first;
    for k in 0..n {
        out[at + k] = 2 * v;
        v += step;
    }
    at + n
}
