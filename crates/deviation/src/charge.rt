// The deviation of a count from its bounds.
ghost use Rattle.std.specs.Prelude.{◌≡◌};
ghost use Rattle.scope.specs.Score.{deviation as deviation_of};

// The deviation of a count from lo to hi.
pub fn deviation(lo: u32, hi: u32, count: u32) -> u32
    ensures { result ≡ deviation_of lo hi count }
{
    if count < lo {
        return lo - count;
    }
    if hi < count {
        return count - hi;
    }
    0
}
