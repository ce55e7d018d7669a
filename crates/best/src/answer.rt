// The operation, with lent stores.
ghost use Rattle.std.specs.Prelude.{◌≡◌, length, replicate};
ghost use Rattle.scope.specs.Answers.{means};
ghost use Rattle.scope.specs.Operations.{best_of};
ghost use Rattle.directory.specs.Rows.{no_row};
ghost use Rattle.claims.specs.Prepared.{lent};

use checker::check;
use cost_bound::{claim_for, judge};
use directory::Row;
use model::evaluate;
use scope::{Objective, Refusal};

// A model's cost w, with the number of steps that show that nothing costs less; or the refusals of decoding, then those of a
// check at bound w - 1. What the stores hold does not matter; afterwards they are zero.
pub fn best(
    file: &[u8],
    model: &[u8],
    proof: &[u8],
    words: &mut [u32],
    rows: &mut [Row],
    marks: &mut [u8],
) -> Result<(Objective, u64), Refusal>
    ensures result_value { means result ≡ best_of file.now model.now proof.now
        (lent (length words.old) (length rows.old) (length marks.old)) }
    ensures words_after { words.new ≡ replicate (length words.old) 0 }
    ensures rows_after { rows.new ≡ replicate (length rows.old) no_row }
    ensures marks_after { marks.new ≡ replicate (length marks.old) 0 }
{
    let e = evaluate(file, model);
    let claim = claim_for(e);
    let c = check(file, claim, proof, words, rows, marks);
    judge(e, c)
}
