// What an evaluation of a model leaves with a caller in C.
#![tactic(auto)]

ghost use Rattle.std.specs.Prelude.{◌≡◌};
ghost use Rattle.calls.specs.Call.{call};
ghost use Rattle.decode_call.specs.Leaves.{leaves_evaluation};

use calls::refuse;
use evaluation::Evaluation;

// How many bytes of the model are the timetable goes to *value, its cost to *objective; of a refusal its value alone.
pub fn leave_evaluation(answer: Evaluation, objective: &mut u64, value: &mut u64) -> u32
    ensures { call result value.new objective.new ≡ leaves_evaluation answer objective.old }
{
    match answer {
        Ok((bytes, cost)) => {
            *objective = cost.0;
            *value = bytes as u64;
            0
        }
        Err(f) => refuse(f, value),
    }
}
