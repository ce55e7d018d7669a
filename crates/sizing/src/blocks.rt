// The blocks of a formula before the constraints, and what stores it needs.
ghost use Rattle.std.specs.Prelude.{◌≡◌, ◌≤◌};
ghost use Rattle.scope.specs.declared.FormulaSize.{FormulaSize};
ghost use Rattle.sizing.specs.Gates.{or_size};
ghost use Rattle.sizing.specs.Blocks.{starts_size, use_size};
ghost use Rattle.sizing.specs.Whole.{stored};

use crate::Size;
use crate::sums::{multiply, nothing};
use scope::FormulaSize;

// Y and S with the clauses of the starts.
pub fn starts_size(events: u64, times: u64) -> Size
    requires { (events ≤ 1024) × (1 ≤ times) × (times ≤ 125) }
    ensures { result ≡ starts_size events times }
{
    let cells = events * times;
    Size {
        variables: 2 * cells,
        clauses: 2 * cells,
        words: events * (5 * times - 1),
        ..nothing()
    }
}

// The OR of n literals.
fn or_size(n: u64) -> Size
    requires { n ≤ 1024 }
    ensures { result ≡ or_size n }
{
    Size {
        variables: 1,
        clauses: n + 1,
        words: 3 * n + 1,
        ..nothing()
    }
}

// X of a resource with so many users, at each time.
pub fn use_size(times: u64, users: u64) -> Size
    requires { (times ≤ 125) × (users ≤ 1024) }
    ensures { result ≡ use_size times users }
{
    let one = or_size(users);
    multiply(times, one)
}

// What stores are lent for.
pub fn stored_size(s: Size) -> FormulaSize
    ensures { result ≡ stored s }
{
    FormulaSize {
        variables: s.variables,
        clauses: s.clauses,
        words: s.words,
    }
}
