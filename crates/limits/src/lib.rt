// The limits of a bound (7) and of the variables of a formula (8).
#![tactic(auto)]

ghost use Rattle.std.specs.Prelude.{◌≡◌, leb};
ghost use Rattle.scope.specs.Formula.{most_bound, most_variables};

// The highest bound.
const MOST_BOUND: u64 = 4095;
// The most variables of a formula.
const MOST_VARIABLES: u64 = 8000000;

// Whether 7 is not given.
pub fn within_bound(bound: u64) -> bool
    ensures { result ≡ leb bound most_bound }
{
    bound <= MOST_BOUND
}

// Whether 8 is not given.
pub fn within_limit(variables: u64) -> bool
    ensures { result ≡ leb variables most_variables }
{
    variables <= MOST_VARIABLES
}
