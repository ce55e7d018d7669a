// Decoding a model: the part of its bytes that holds Y and S, with its cost. proofs/laws/Demand.antt shows demand 2 of the answers.
#![tactic(auto)]

ghost use Rattle.std.specs.Prelude.{◌≡◌};
ghost use Rattle.scope.specs.Operations.{decode_of};
ghost use Rattle.scope.specs.Answers.{decode_means};
ghost use Rattle.decoding.specs.Given.{part_given};

use evaluation::{answer_of, part_of};
use model::evaluate;
use scope::{Objective, Refusal};

// What decoding gives: the part of the model that holds Y and S, with its cost; or an empty part, with the refusal.
#[derive(Clone, Copy)]
pub struct Decoding<'a> {
    pub part: &'a [u8],
    pub answer: Result<Objective, Refusal>,
}

// The part of the model that holds Y and S with the cost, or refusals 1 to 6, 8, 10, 11, 13, 19 and 22.
pub fn decode<'a>(file: &[u8], model: &'a [u8]) -> Decoding<'a>
    ensures { (decode_means result.part.now result.answer ≡ decode_of file.now model.now)
        × (result.part.now ≡ part_given (decode_of file.now model.now)) }
{
    let e = evaluate(file, model);
    let part = part_of(model, e);
    let answer = answer_of(e);
    Decoding { part, answer }
}
