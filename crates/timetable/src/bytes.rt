// Bytes 0 and 1.
ghost use Rattle.std.specs.Prelude.{◌≡◌, ℕ, ◌+◌, ◌≤◌, ◌<◌, length, get_or};
ghost use Rattle.scope.specs.Kinds.{up_to};
ghost use Rattle.scope.specs.Score.{trues, first_above};
ghost use Rattle.timetable.specs.Answers.{found_at};
ghost use Rattle.resource_uses.specs.Bits.{marks};

use resource_uses::bit_of;

// A byte that none of the bytes is above.
fn largest(bytes: &[u8]) -> u8
    ensures { (k : ℕ) → k < length bytes.now → get_or bytes.now k 0 ≤ result }
{
    let mut most = 0;
    for b in bytes {
        most = most.max(*b);
    }
    most
}

// The offset of the first byte above 1. The search comes after one pass over all bytes, which is quick and mostly enough.
pub fn first_above(bytes: &[u8]) -> Option<u64>
    ensures { found_at result ≡ first_above 0 bytes.now }
{
    if largest(bytes) <= 1 {
        return None;
    }
    for i in 0..bytes.len() {
        if 1 < bytes[i] {
            return Some(i as u64);
        }
    }
    None
}

// How many of n bytes are 1, from an offset on.
pub fn ones(bytes: &[u8], base: usize, n: usize) -> u32
    requires { (base + n ≤ length bytes.now) × (n ≤ 1000) }
    ensures { result ≡ trues (marks bytes.now base (up_to n)) }
{
    let mut count = 0;
    for i in 0..n {
        count += bit_of(bytes[base + i]);
    }
    count
}
