// The step that stands at an offset of the proof is taken, and counted.
ghost use Rattle.std.specs.Prelude.{◌≡◌};
ghost use Rattle.turns.specs.Check.{step_taken};

use hints::machine::Phase;
use scope::Reason;
use steps::step::{Clause, Step, read_step};
use turns::check::{Check, Tally, in_phase};

// The step that stands at an offset, if there is one.
pub fn next_step(c: Check, at: usize, proof: &[u8], last: usize, marks: &mut [u8]) -> Check
    ensures value { result ≡ (step_taken proof.now c at last marks.old).check }
    ensures marks_after { marks.new ≡ (step_taken proof.now c at last marks.old).marks }
{
    if proof.len() <= at {
        return in_phase(c, Phase::Refused(Reason::BadEnd));
    }
    let tally = Tally {
        steps: c.tally.steps.saturating_add(1),
        ..c.tally
    };
    match read_step(proof, at, tally.highest, last, marks) {
        None => Check {
            phase: Phase::Refused(Reason::BadStep),
            tally,
            ..c
        },
        Some(Step::Adds(clause)) => Check {
            phase: Phase::Walk,
            tally,
            clause,
        },
        Some(Step::Deletes(from)) => Check {
            phase: Phase::Delete,
            tally,
            clause: Clause {
                id: 0,
                literals: from,
                size: 0,
                hints: from,
            },
        },
    }
}
