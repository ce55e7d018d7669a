// The ids of a step that deletes.
ghost use Rattle.std.specs.Prelude.{◌≡◌};
ghost use Rattle.scope.specs.Answers.{said};
ghost use Rattle.deletion.specs.Passed.{passed_id};

use directory::Row;
use hints::machine::{Machine, Phase, step_on, stop};
use scope::{Parsed, Reason};

// The row of the id that was wanted is live, and the next id is wanted; or a 0 ends the ids. t is the number that was read where
// the machine stands.
pub fn pass_id(m: Machine, row: Row, t: Parsed<u32>) -> Machine
    ensures { result ≡ passed_id (said t) m row }
{
    let at = m.at;
    if row.is_dead() {
        return stop(Phase::Refused(Reason::NotLive), at);
    }
    let Ok((id, next)) = t else {
        return stop(Phase::Refused(Reason::BadStep), at);
    };
    step_on(Phase::Delete, Phase::Next, id, next, 0)
}
