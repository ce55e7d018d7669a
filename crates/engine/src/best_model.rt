// The best model as a C function.
ghost use Rattle.std.specs.Prelude.{◌≡◌};
ghost use Rattle.calls.specs.Call.{call};
ghost use Rattle.operation_calls.specs.Operations.{best_call};

use best::best;
use calls::leave_best;
use directory::Row;

// The cost of a model that no timetable undercuts, and in *value the number of steps that show it; or the refusals of
// timetable_decode, then those of timetable_check at one below the cost. The stores are zero afterwards.
#[unsafe(no_mangle)]
pub extern "C" fn timetable_best(
    file: &[u8],
    model: &[u8],
    proof: &[u8],
    words: &mut [u32],
    rows: &mut [Row],
    marks: &mut [u8],
    objective: &mut u64,
    value: &mut u64,
) -> u32
    ensures { call result value.new (objective.new, (words.new, rows.new, marks.new))
        ≡ best_call file.now model.now proof.now objective.old
        (words.old, rows.old, marks.old) }
{
    let answer = best(file, model, proof, words, rows, marks);
    leave_best(answer, objective, value)
}
