// The marks of a step are opened again, from the kept clause and the trail.
ghost use Rattle.std.specs.Prelude.{◌≡◌, length};
ghost use Rattle.turns.specs.Check.{unwound, unwound_marks};

use hints::machine::{Machine, Phase, stop};
use standing::wipe_clause;
use turns::check::Check;

// The clause at hand was kept, at the end of the words in use: its variables are opened again, and those of the literals on the
// trail. Where the trail had no room for all of them, the clauses of the hints are to be wiped one by one.
pub fn unwind(c: Check, m: Machine, words: &[u32], marks: &mut [u8], trail: &[u32]) -> Machine
    ensures value { result ≡ unwound c m (length trail.now) }
    ensures marks_after { marks.new ≡ unwound_marks c m words.now marks.old trail.now }
{
    let clause = c.clause;
    let tally = c.tally;
    let set = m.set;
    if trail.len() < set {
        return Machine {
            phase: Phase::Wipe,
            at: clause.hints,
            want: clause.id,
            set: 0,
        };
    }
    let first = tally.words.saturating_sub(clause.size);
    wipe_clause(marks, words, first, clause.size);
    wipe_clause(marks, trail, 0, set);
    stop(Phase::Next, m.at)
}
