// What a solver printed as a C function.
ghost use Rattle.std.specs.Prelude.{◌≡◌};
ghost use Rattle.calls.specs.Call.{call};
ghost use Rattle.operation_calls.specs.Operations.{solver_text_call};

use decode_call::leave_evaluation;
use solver_text::solver_text;

// The lent model filled from the text: how many of its bytes, from its first, are the timetable, in *value, and its cost; or 1 to 6, 8,
// 9, 10, 13, 19 to 22, and the lent model as it was. The store is zero afterwards.
#[unsafe(no_mangle)]
pub extern "C" fn timetable_solver_text(
    file: &[u8],
    text: &[u8],
    model: &mut [u8],
    store: &mut [u8],
    objective: &mut u64,
    value: &mut u64,
) -> u32
    ensures { call result value.new (objective.new, model.new, store.new)
        ≡ solver_text_call file.now text.now model.old store.old objective.old }
{
    let answer = solver_text(file, text, model, store);
    leave_evaluation(answer, objective, value)
}
