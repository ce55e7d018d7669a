// The machine that judges a proof, id by id. It never sees the directory: it names the id that it wants, and is handed the
// row that was found and the number that was read where it stands in the proof.
ghost use Rattle.std.specs.Prelude.{◌≡◌, length};
ghost use Rattle.scope.specs.Answers.{said};
ghost use Rattle.theory.specs.Marked.{standing, falsified};
ghost use Rattle.marks.specs.Marks.{marks_of};
ghost use Rattle.directory.specs.Rows.{row_clause};
ghost use Rattle.hints.specs.Machine.{turn_of, stopped, onward, walked, walked_marks, walked_trail, advanced, advanced_marks, advanced_trail};

use directory::Row;
use marks::put_mark;
use scope::{Parsed, Reason};
use standing::{Standing, standing_of, wipe_clause};
use trail::record_literal;

// What is to be done next.
#[derive(Clone, Copy)]
pub enum Phase {
    // A step is to be read.
    Next,
    // A hint is wanted: the clause that it names is to be judged.
    Walk,
    // The clause of the step follows by its hints.
    Followed,
    // It fits, and is to be stored.
    Keep,
    // An id is wanted: the variables of the clause that it names are to be opened again.
    Wipe,
    // An id is wanted: the clause that it names is to be deleted.
    Delete,
    // The empty clause was added, and nothing follows.
    Proved,
    // A refusal.
    Refused(Reason),
}

// The turns of a check.
#[derive(Clone, Copy, PartialEq, Eq)]
pub enum Turn {
    // A clause is looked at.
    Look,
    // One is deleted.
    Delete,
    // One is kept.
    Keep,
    // One is judged.
    Judge,
    // A step is read.
    Read,
    // None is left.
    End,
}

// A phase, where the next number of the proof stands, the id that is wanted, and how many literals the trail of the step at hand
// holds: those that its hints set true; the largest number where it has no room for them (no plainer as an Option: one
// test against the trail's length is for both).
#[derive(Clone, Copy)]
pub struct Machine {
    pub phase: Phase,
    pub at: usize,
    pub want: usize,
    pub set: usize,
}

// The turn that a machine waits for.
pub fn turn_of(m: Machine) -> Turn
    ensures { result ≡ turn_of m.phase }
{
    match m.phase {
        Phase::Walk | Phase::Wipe => Turn::Look,
        Phase::Delete => Turn::Delete,
        Phase::Keep => Turn::Keep,
        Phase::Followed => Turn::Judge,
        Phase::Next => Turn::Read,
        Phase::Proved | Phase::Refused(_) => Turn::End,
    }
}

// No id is wanted.
pub fn stop(phase: Phase, at: usize) -> Machine
    ensures { result ≡ stopped phase at }
{
    Machine {
        phase,
        at,
        want: 0,
        set: 0,
    }
}

// An id was read, before the offset next: it is wanted, or a 0 ends the ids.
pub fn step_on(phase: Phase, over: Phase, id: u32, next: usize, set: usize) -> Machine
    ensures { result ≡ onward phase over id next set }
{
    if id == 0 {
        return stop(over, next);
    }
    Machine {
        phase,
        at: next,
        want: id as usize,
        set,
    }
}

// A hint's clause has exactly one open literal, which is then set true; or all its literals are false, and it is the last hint.
fn take_hint(
    row: Row,
    id: u32,
    next: usize,
    set: usize,
    words: &[u32],
    marks: &mut [u8],
    trail: &mut [u32],
) -> Machine
    ensures value { result ≡ walked (length trail.old) (standing (marks_of marks.old) falsified (row_clause row words.now)) id next set }
    ensures marks_after { marks.new ≡ walked_marks (standing (marks_of marks.old) falsified (row_clause row words.now)) marks.old }
    ensures trail_after { trail.new ≡ walked_trail (standing (marks_of marks.old) falsified (row_clause row words.now)) set trail.old }
{
    let s = standing_of(marks, words, row.first_word(), row.word_count());
    match s {
        Standing::Falsified => {
            if id == 0 {
                return Machine {
                    phase: Phase::Followed,
                    at: next,
                    want: 0,
                    set,
                };
            }
            stop(Phase::Refused(Reason::BadHint), next)
        }
        Standing::OneOpen(l) => {
            put_mark(marks, (l / 2) as usize, (1 + l % 2) as u8);
            let more = record_literal(trail, set, l);
            step_on(Phase::Walk, Phase::Refused(Reason::BadHint), id, next, more)
        }
        Standing::Other => stop(Phase::Refused(Reason::BadHint), next),
    }
}

// One turn with the row of the id that was wanted, to judge a hint or to open its variables again; t is the number that was read
// where the machine stands.
pub fn advance(
    m: Machine,
    row: Row,
    t: Parsed<u32>,
    words: &[u32],
    marks: &mut [u8],
    trail: &mut [u32],
) -> Machine
    ensures value { result ≡ advanced (said t) (length trail.old) m row words.now marks.old }
    ensures marks_after { marks.new ≡ advanced_marks (said t) m row words.now marks.old }
    ensures trail_after { trail.new ≡ advanced_trail (said t) m row words.now marks.old trail.old }
{
    let at = m.at;
    if row.is_dead() {
        return stop(Phase::Refused(Reason::NotLive), at);
    }
    let Ok((id, next)) = t else {
        return stop(Phase::Refused(Reason::BadStep), at);
    };
    match m.phase {
        Phase::Walk => take_hint(row, id, next, m.set, words, marks, trail),
        Phase::Wipe => {
            wipe_clause(marks, words, row.first_word(), row.word_count());
            step_on(Phase::Wipe, Phase::Next, id, next, 0)
        }
        _ => m,
    }
}
