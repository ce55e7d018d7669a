// Counted lists: a counter over their literals and the units of their bounds.
ghost use Rattle.std.specs.Prelude.{◌≡◌, ◌≤◌};
ghost use Rattle.scope.specs.Formula.{columns};
ghost use Rattle.sizing.specs.Counts.{units_size, shorts_size, low_size, count_size, list_size};

use crate::Size;
use crate::rows::rows_size;
use crate::sums::{nothing, plus};

// The units of one weight for k columns; the weight 0 means hard, and then one stands for all.
fn units_size(weight: u64, k: u64) -> Size
    requires { (weight ≤ 1000) × (k ≤ 255) }
    ensures { result ≡ units_size weight k }
{
    if weight == 0 {
        let one = k.min(1);
        return Size {
            clauses: one,
            words: one,
            ..nothing()
        };
    }
    Size {
        units: k,
        weight: k * weight,
        ..nothing()
    }
}

// The low part of kind 6: k variables, each with its unit.
fn shorts_size(weight: u64, k: u64) -> Size
    requires { (weight ≤ 1000) × (k ≤ 255) }
    ensures { result ≡ shorts_size weight k }
{
    if weight == 0 {
        return Size {
            variables: k,
            clauses: 4 * k,
            words: 8 * k,
            ..nothing()
        };
    }
    Size {
        variables: k,
        clauses: 3 * k,
        words: 7 * k,
        units: k,
        weight: k * weight,
    }
}

// The low part; where a count of 0 is free it is kind 6's.
fn low_size(weight: u64, lo: u64, free: bool) -> Size
    requires { (weight ≤ 1000) × (lo ≤ 255) }
    ensures { result ≡ low_size weight lo free }
{
    if free {
        let k = lo.saturating_sub(1);
        return shorts_size(weight, k);
    }
    units_size(weight, lo)
}

// The columns of a counter over n literals.
fn columns_of(weight: u64, hi: u64, n: u64) -> u64
    requires { hi ≤ 255 }
    ensures { result ≡ columns weight hi n }
{
    if weight == 0 {
        return n.min(hi + 1);
    }
    n
}

// A counted list of n literals between lo and hi.
fn count_size(weight: u64, lo: u64, hi: u64, free: bool, n: u64) -> Size
    requires { (weight ≤ 1000) × (n ≤ 255) × (lo ≤ hi) × (hi ≤ n) }
    ensures { result ≡ count_size weight lo hi free n }
{
    let columns = columns_of(weight, hi, n);
    let counter = rows_size(columns, n, 1);
    let low = low_size(weight, lo, free);
    let above = n - hi;
    let high = units_size(weight, above);
    let bounds = plus(low, high);
    plus(counter, bounds)
}

// A counted list of n members between lo and hi as written; where free, a count of 0 is.
pub fn list_size(weight: u64, lo: u64, hi: u64, free: bool, n: u64) -> Size
    requires { (weight ≤ 1000) × (n ≤ 255) × (lo ≤ hi) × (lo ≤ n) }
    ensures { result ≡ list_size weight lo hi free n }
{
    let lowered = hi.min(n);
    count_size(weight, lo, lowered, free, n)
}
