// Kind 1: the uses of a resource above one, at each time.
ghost use Rattle.std.specs.Prelude.{◌≡◌, ◌-◌, ◌≤◌, ◌+◌, length, get_or};
ghost use Rattle.scope.specs.Kinds.{clash, up_to};
ghost use Rattle.constraint.specs.Answers.{counts_in};
ghost use Rattle.constraint.specs.Valid.{InRange};
ghost use Rattle.deviation.specs.Charge.{MatrixIn, clash_charge};
ghost use Rattle.deviation.specs.Sums.{total};

use crate::rows::row_of;
use constraint::{Clash, Head};

fn over_one(n: u16) -> u32
    ensures { (result ≡ n - 1) × (result ≤ 65535) }
{
    u32::from(n.saturating_sub(1))
}

// What n counts are above 1, from an offset on.
fn above_one(counts: &[u16], base: usize, n: usize) -> u32
    requires { (base + n ≤ length counts.now) × (n ≤ 125) }
    ensures { result ≡ total (λ t. get_or counts.now (base + (t - 1)) 0 - 1) (up_to n) }
{
    let mut sum = 0;
    for i in 0..n {
        sum += over_one(counts[base + i]);
    }
    sum
}

pub fn of_clash(f: Clash, head: Head, uses: &[u16]) -> u32
    requires { MatrixIn (counts_in head) uses.now × InRange (counts_in head) (clash f.resource) }
    ensures { result ≡ clash_charge head.times uses.now f.resource }
{
    let base = row_of(f.resource, head.times);
    let times = head.times as usize;
    above_one(uses, base, times)
}
