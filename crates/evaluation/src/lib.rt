// What is told of an evaluated model, and the part and the answer that decoding makes of it.
#![tactic(auto)]

ghost use Rattle.std.specs.Prelude.{◌≡◌};
ghost use Rattle.evaluation.specs.Evaluated.{judged_of, part_of, answer_of};

use scope::{Objective, Reason, Refusal};

// How many bytes of the model hold Y and S, with the weight of the soft clauses that it falsifies; or a refusal.
pub type Evaluation = Result<(usize, Objective), Refusal>;

// 13 with the id of a false clause; where there is none, the id being 0, the length of the part and the weight.
pub fn judge(bad: usize, lost: u64, part: usize) -> Evaluation
    ensures { result ≡ judged_of bad lost part }
{
    if bad == 0 {
        let cost = Objective(lost);
        return Ok((part, cost));
    }
    Err(Refusal {
        reason: Reason::ClauseFalse,
        value: bad as u64,
    })
}

// So many bytes of the model, from its first, and no more than it has; none of one that is refused.
pub fn part_of<'a>(model: &'a [u8], e: Evaluation) -> &'a [u8]
    ensures { result.now ≡ part_of e model.now }
{
    match e {
        Ok((n, _)) => &model[..n.min(model.len())],
        Err(_) => &model[..0],
    }
}

// The cost, or the refusal.
pub fn answer_of(e: Evaluation) -> Result<Objective, Refusal>
    ensures { result ≡ answer_of e }
{
    let (_, cost) = e?;
    Ok(cost)
}
