// What comes next, by the phase: a walk over ids begins, the machine goes on, or the check has ended.
ghost use Rattle.std.specs.Prelude.{◌≡◌};
ghost use Rattle.scope.specs.Number.{number as number_at};
ghost use Rattle.turns.specs.Check.{first_id, entered, proceeded, answer_of};

use hints::machine::{Machine, Phase, step_on, stop};
use reader::Reader;
use scope::{Reason, Refusal};
use turns::check::Check;

// A walk over the ids that stand at an offset.
fn first_id(phase: Phase, over: Phase, proof: &[u8], at: usize) -> Machine
    ensures { result ≡ first_id phase over at (number_at proof.now at) }
{
    match Reader::new(proof, at).number() {
        Ok((id, next)) => step_on(phase, over, id, next, 0),
        Err(_) => stop(Phase::Refused(Reason::BadStep), at),
    }
}

// The machine at the start of what comes next: a walk over ids begins with the first of them.
pub fn enter(c: Check, proof: &[u8]) -> Machine
    ensures { result ≡ entered proof.now c }
{
    let clause = c.clause;
    let at = clause.hints;
    let phase = c.phase;
    match phase {
        Phase::Walk => first_id(Phase::Walk, Phase::Refused(Reason::BadHint), proof, at),
        Phase::Delete => first_id(Phase::Delete, Phase::Next, proof, at),
        Phase::Wipe => Machine {
            phase,
            at,
            want: clause.id,
            set: 0,
        },
        _ => stop(phase, at),
    }
}

// The machine once the clause at hand was judged: it stays where it is, with its trail.
pub fn proceed(c: Check, m: Machine) -> Machine
    ensures { result ≡ proceeded c m }
{
    Machine {
        phase: c.phase,
        want: 0,
        ..m
    }
}

// The answer of a check that has ended; one that has not is never asked.
pub fn answer(c: Check, m: Machine) -> Result<u64, Refusal>
    ensures { result ≡ answer_of c.tally.steps m.phase }
{
    let steps = c.tally.steps;
    match m.phase {
        Phase::Proved => Ok(steps),
        Phase::Refused(reason) => Err(Refusal {
            reason,
            value: steps,
        }),
        _ => Err(Refusal {
            reason: Reason::BadStep,
            value: steps,
        }),
    }
}
