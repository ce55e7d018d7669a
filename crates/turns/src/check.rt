// A check between two walks over ids: what is counted, and the clause at hand.
ghost use Rattle.std.specs.Prelude.{◌≡◌};
ghost use Rattle.copying.specs.Copies.{copied_at};
ghost use Rattle.turns.specs.Check.{begun, with_phase, judged, row_of, kept_as};

use copying::literals::copy_literals;
use directory::Row;
use hints::machine::Phase;
use scope::Reason;
use steps::step::Clause;

// Steps, the one at hand counted; the highest id; rows and words in use.
#[derive(Clone, Copy)]
pub struct Tally {
    pub steps: u64,
    pub highest: usize,
    pub rows: usize,
    pub words: usize,
}

// What comes next, what is counted, and the clause at hand; for a step that deletes, its hints are where the ids stand.
#[derive(Clone, Copy)]
pub struct Check {
    pub phase: Phase,
    pub tally: Tally,
    pub clause: Clause,
}

// Before the first step, with a formula of so many rows and words.
pub fn begin(rows: usize, words: usize) -> Check
    ensures { result ≡ begun rows words }
{
    let tally = Tally {
        steps: 0,
        highest: rows,
        rows,
        words,
    };
    let clause = Clause {
        id: 0,
        literals: 0,
        size: 0,
        hints: 0,
    };
    Check {
        phase: Phase::Next,
        tally,
        clause,
    }
}

// The check in another phase.
pub fn in_phase(c: Check, phase: Phase) -> Check
    ensures { result ≡ with_phase c phase }
{
    Check { phase, ..c }
}

// The clause at hand follows, and what comes after its step stands at an offset. The empty clause ends the proof; another is
// kept if it fits the words and rows that are lent.
pub fn judge(c: Check, at: usize, bytes: usize, words: usize, rows: usize) -> Check
    ensures { result ≡ judged c at bytes words rows }
{
    let clause = c.clause;
    let tally = c.tally;
    if clause.size == 0 {
        if at < bytes {
            return in_phase(c, Phase::Refused(Reason::BadEnd));
        }
        return in_phase(c, Phase::Proved);
    }
    if words < tally.words {
        return in_phase(c, Phase::Refused(Reason::ClauseTooLong));
    }
    if words - tally.words < clause.size {
        return in_phase(c, Phase::Refused(Reason::ClauseTooLong));
    }
    if rows <= tally.rows {
        return in_phase(c, Phase::Refused(Reason::ClauseTooLong));
    }
    in_phase(c, Phase::Keep)
}

// The row of the clause at hand.
pub fn row_of(c: Check) -> Row
    ensures { result ≡ row_of c }
{
    let clause = c.clause;
    let tally = c.tally;
    Row::new(clause.id, tally.words, clause.size)
}

// The clause at hand is stored, and counted.
pub fn keep(c: Check, proof: &[u8], words: &mut [u32]) -> Check
    ensures value { result ≡ kept_as c }
    ensures words_after { words.new ≡ copied_at proof.now c.clause.literals words.old c.tally.words }
{
    let clause = c.clause;
    let old = c.tally;
    copy_literals(proof, clause.literals, words, old.words);
    let tally = Tally {
        highest: clause.id,
        rows: old.rows.saturating_add(1),
        words: old.words.saturating_add(clause.size),
        ..old
    };
    Check {
        phase: Phase::Wipe,
        tally,
        clause,
    }
}
