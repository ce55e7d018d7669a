// Rows of counters, and the tail.
ghost use Rattle.std.specs.Prelude.{◌≡◌, ◌≤◌};
ghost use Rattle.sizing.specs.Sums.{Within};
ghost use Rattle.sizing.specs.Gates.{hard_unit};
ghost use Rattle.sizing.specs.Rows.{first_row, later_row, equal_rows};
ghost use Rattle.sizing.specs.Tail.{tail_add};

use crate::Size;
use crate::sums::{multiply, nothing, plus};

// The first row of a counter, for a literal of the weight given.
fn first_row(columns: u64, weight: u64) -> Size
    requires { columns ≤ 4096 }
    ensures { result ≡ first_row columns weight }
{
    let low = columns.min(weight);
    Size {
        variables: columns,
        clauses: 2 * columns,
        words: 3 * columns + low,
        ..nothing()
    }
}

// A later row.
fn later_row(columns: u64, weight: u64) -> Size
    requires { columns ≤ 4096 }
    ensures { result ≡ later_row columns weight }
{
    let past = columns.saturating_sub(weight);
    Size {
        variables: columns,
        clauses: 3 * columns + past,
        words: 7 * columns + 4 * past,
        ..nothing()
    }
}

// A counter over n literals of one weight.
pub fn rows_size(columns: u64, n: u64, weight: u64) -> Size
    requires { (columns ≤ 4096) × (n ≤ 32768) }
    ensures { result ≡ equal_rows columns n weight }
{
    if n == 0 {
        return nothing();
    }
    let first = first_row(columns, weight);
    let later = later_row(columns, weight);
    let rest = multiply(n - 1, later);
    plus(first, rest)
}

// A unit that is a hard clause.
fn hard_unit() -> Size
    ensures { result ≡ hard_unit }
{
    Size {
        clauses: 1,
        words: 1,
        ..nothing()
    }
}

// The tail, which has come to `tail`, with n soft units of one weight more at its end.
pub fn tail_add(columns: u64, tail: Size, n: u64, weight: u64) -> Size
    requires { (columns ≤ 4096) × (n ≤ 32768) × Within 4611686018427387904 tail }
    ensures { result ≡ tail_add columns tail n weight }
{
    if n == 0 {
        return tail;
    }
    if tail.variables == 0 {
        let counter = rows_size(columns, n, weight);
        let unit = hard_unit();
        return plus(counter, unit);
    }
    let later = later_row(columns, weight);
    let more = multiply(n, later);
    plus(tail, more)
}
