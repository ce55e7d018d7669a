// What comes before a proof's first step: refusals 1 to 9, 19 and 22, and in the lent words the formula that the claim is about.
ghost use Rattle.std.specs.Prelude.{◌≡◌, ◌*◌, ◌≤◌, length, replicate};
ghost use Rattle.scope.specs.Answers.{means};
ghost use Rattle.tables.specs.Room.{group_room};
ghost use Rattle.claims.specs.Prepared.{lent, too_short, sized_as, formula_for, ready_of, words_with};
ghost use Rattle.claims.specs.declared.claim.Claim.{Claim};

use crate::bounded::write_bounded;
use crate::claim::Claim;
use crate::rows::write_hard;
use lent::fits;
use scope::{FormulaSize, Reason, Refusal};
use sizes::{measure, measure_bound};
use sizing::blocks::stored_size;

// A formula of so many words, with its last variable.
#[derive(Clone, Copy)]
pub struct Ready {
    pub used: usize,
    pub last: usize,
}

// A formula of a size that was written (no plainer as an impl of From, whose promise is said once more).
fn formula_of(z: FormulaSize) -> Ready
    ensures { result ≡ sized_as z }
{
    Ready {
        used: z.words as usize,
        last: z.variables as usize,
    }
}

fn too_short() -> Refusal
    ensures { result ≡ too_short }
{
    Refusal {
        reason: Reason::TooShort,
        value: 0,
    }
}

// The hard clauses and the tail for a bound are written if the stores are long enough for them. The groups' table has the rows that
// the file may need.
fn fill_bounded_in(
    file: &[u8],
    bound: u64,
    words: &mut [u32],
    rows: usize,
    bytes: usize,
    groups: &mut [u8],
) -> Result<Ready, Refusal>
    requires { group_room file.now * 126 ≤ length groups.old }
    ensures value { means result ≡ ready_of (formula_for file.now (Claim.Bound bound) (lent (length words.old) rows bytes)) }
    ensures words_after { words.new ≡ words_with (formula_for file.now (Claim.Bound bound) (lent (length words.old) rows bytes)) words.old }
{
    let mut durations = tables::durations();
    let mut resources = tables::resource_rows();
    let mut list = tables::list();
    let (head, z, all) = measure_bound(
        file,
        bound,
        &mut durations,
        &mut resources,
        groups,
        &mut list,
    )?;
    if !fits(all, words.len(), rows, bytes) {
        return Err(too_short());
    }
    write_bounded(
        words, bound, z, file, head, &durations, &resources, groups, &mut list,
    );
    Ok(formula_of(all))
}

// Both, with the table that the file needs, chosen here and not by tables::with_groups: tried, and a caller is not told what a closure leaves in another `&mut`.
fn fill_bounded(
    file: &[u8],
    bound: u64,
    words: &mut [u32],
    rows: usize,
    bytes: usize,
) -> Result<Ready, Refusal>
    ensures value { means result ≡ ready_of (formula_for file.now (Claim.Bound bound) (lent (length words.old) rows bytes)) }
    ensures words_after { words.new ≡ words_with (formula_for file.now (Claim.Bound bound) (lent (length words.old) rows bytes)) words.old }
{
    if tables::dated(file) {
        let mut groups = tables::window_rows();
        return fill_bounded_in(file, bound, words, rows, bytes, &mut groups);
    }
    let mut groups = tables::group_rows();
    fill_bounded_in(file, bound, words, rows, bytes, &mut groups)
}

// The hard clauses alone (one function for both claims would be no plainer: they differ in what is measured and written).
fn fill_hard_in(
    file: &[u8],
    words: &mut [u32],
    rows: usize,
    bytes: usize,
    groups: &mut [u8],
) -> Result<Ready, Refusal>
    requires { group_room file.now * 126 ≤ length groups.old }
    ensures value { means result ≡ ready_of (formula_for file.now Claim.AnyCost (lent (length words.old) rows bytes)) }
    ensures words_after { words.new ≡ words_with (formula_for file.now Claim.AnyCost (lent (length words.old) rows bytes)) words.old }
{
    let mut durations = tables::durations();
    let mut resources = tables::resource_rows();
    let mut list = tables::list();
    let (head, z) = measure(file, &mut durations, &mut resources, groups, &mut list)?;
    let all = stored_size(z);
    if !fits(all, words.len(), rows, bytes) {
        return Err(too_short());
    }
    write_hard(words, file, head, &durations, &resources, groups, &mut list);
    Ok(formula_of(all))
}

// The hard clauses, with the table that the file needs, chosen here for the same reason.
fn fill_hard(file: &[u8], words: &mut [u32], rows: usize, bytes: usize) -> Result<Ready, Refusal>
    ensures value { means result ≡ ready_of (formula_for file.now Claim.AnyCost (lent (length words.old) rows bytes)) }
    ensures words_after { words.new ≡ words_with (formula_for file.now Claim.AnyCost (lent (length words.old) rows bytes)) words.old }
{
    if tables::dated(file) {
        let mut groups = tables::window_rows();
        return fill_hard_in(file, words, rows, bytes, &mut groups);
    }
    let mut groups = tables::group_rows();
    fill_hard_in(file, words, rows, bytes, &mut groups)
}

// The formula in the words, with every mark open, where a directory of so many rows is lent; after a refusal the words are as
// they were.
pub fn prepare(
    file: &[u8],
    claim: Claim,
    words: &mut [u32],
    rows: usize,
    marks: &mut [u8],
) -> Result<Ready, Refusal>
    ensures value { means result ≡ ready_of (formula_for file.now claim (lent (length words.old) rows (length marks.old))) }
    ensures words_after { words.new ≡ words_with (formula_for file.now claim (lent (length words.old) rows (length marks.old))) words.old }
    ensures marks_after { marks.new ≡ replicate (length marks.old) 0 }
{
    marks.fill(0);
    let bytes = marks.len();
    match claim {
        Claim::Bound(bound) => fill_bounded(file, bound, words, rows, bytes),
        Claim::AnyCost => fill_hard(file, words, rows, bytes),
    }
}
