// A decoded cost against bounds: the claim that is to be checked, and what the check makes of the cost.
#![tactic(auto)]

ghost use Rattle.std.specs.Prelude.{◌≡◌, leb};
ghost use Rattle.cost_bound.specs.Claimed.{claim_for, shown_for, judged};

use claims::claim::Claim;
use evaluation::Evaluation;
use scope::{Objective, Refusal};

// A bound above all that are allowed: a check of it looks at no proof and clears the stores.
const NO_BOUND: u64 = 18446744073709551615;

// Whether a cost is within a bound. Only an objective has a bound.
pub fn within(cost: Objective, bound: u64) -> bool
    ensures { result ≡ leb cost.0 bound }
{
    cost.0 <= bound
}

// What a proof is to show of a model: nothing costs one less. A cost of 0, and a model that is refused, need no proof.
pub fn claim_for(e: Evaluation) -> Claim
    ensures { result ≡ claim_for e }
{
    match e {
        Ok((_, cost)) => {
            if within(cost, 0) {
                return Claim::Bound(NO_BOUND);
            }
            let below = cost.0 - 1;
            Claim::Bound(below)
        }
        Err(_) => Claim::Bound(NO_BOUND),
    }
}

// A cost that a proof was wanted for.
fn shown_for(cost: Objective, c: Result<u64, Refusal>) -> Result<(Objective, u64), Refusal>
    ensures { result ≡ shown_for cost c }
{
    let steps = c?;
    Ok((cost, steps))
}

// The decoder's refusal, else the check's; a cost of 0 has neither.
pub fn judge(e: Evaluation, c: Result<u64, Refusal>) -> Result<(Objective, u64), Refusal>
    ensures { result ≡ judged e c }
{
    let (_, cost) = e?;
    if within(cost, 0) {
        return Ok((cost, 0));
    }
    shown_for(cost, c)
}
