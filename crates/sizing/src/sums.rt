// Sizes added up and multiplied.
ghost use Rattle.std.specs.Prelude.{◌≡◌};
ghost use Rattle.sizing.specs.Sums.{none, sum, multiple, Fits64};

use crate::Size;

// The size of nothing.
pub fn nothing() -> Size
    ensures { result ≡ none }
{
    Size {
        variables: 0,
        clauses: 0,
        words: 0,
        units: 0,
        weight: 0,
    }
}

// The size of two parts together.
pub fn plus(a: Size, b: Size) -> Size
    requires { Fits64 (sum a b) }
    ensures { result ≡ sum a b }
{
    Size {
        variables: a.variables + b.variables,
        clauses: a.clauses + b.clauses,
        words: a.words + b.words,
        units: a.units + b.units,
        weight: a.weight + b.weight,
    }
}

// The size of k parts of the size a.
pub fn multiply(k: u64, a: Size) -> Size
    requires { Fits64 (multiple k a) }
    ensures { result ≡ multiple k a }
{
    Size {
        variables: k * a.variables,
        clauses: k * a.clauses,
        words: k * a.words,
        units: k * a.units,
        weight: k * a.weight,
    }
}
