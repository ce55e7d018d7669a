// The check of a proof, with lent stores.
ghost use Rattle.std.specs.Prelude.{◌≡◌, length, replicate};
ghost use Rattle.scope.specs.Answers.{means};
ghost use Rattle.directory.specs.Rows.{no_row};
ghost use Rattle.claims.specs.Prepared.{lent, asked};

use building::build_directory;
use claims::claim::Claim;
use claims::prepare::prepare;
use directory::{Row, clear};
use run::drive::drive;
use scope::Refusal;

// The directory is built of the formula of the claim, and the proof is judged.
fn follow(
    file: &[u8],
    claim: Claim,
    proof: &[u8],
    words: &mut [u32],
    rows: &mut [Row],
    marks: &mut [u8],
) -> Result<u64, Refusal>
    ensures { means result ≡ asked file.now claim
        (lent (length words.old) (length rows.old) (length marks.old)) proof.now }
{
    let ready = prepare(file, claim, words, rows.len(), marks)?;
    let n = build_directory(words, rows, ready.used);
    drive(proof, words, rows, marks, ready.last, n, ready.used)
}

// "No timetable" with the number of steps, or refusals 1 to 9, 14 to 19 and 22; without the tail 7 is never given. What the stores
// hold does not matter; afterwards they are zero.
pub fn check(
    file: &[u8],
    claim: Claim,
    proof: &[u8],
    words: &mut [u32],
    rows: &mut [Row],
    marks: &mut [u8],
) -> Result<u64, Refusal>
    ensures result_value { means result ≡ asked file.now claim
        (lent (length words.old) (length rows.old) (length marks.old)) proof.now }
    ensures words_after { words.new ≡ replicate (length words.old) 0 }
    ensures rows_after { rows.new ≡ replicate (length rows.old) no_row }
    ensures marks_after { marks.new ≡ replicate (length marks.old) 0 }
{
    let r = follow(file, claim, proof, words, rows, marks);
    words.fill(0);
    clear(rows);
    marks.fill(0);
    r
}
