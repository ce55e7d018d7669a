// The check without the tail as a C function.
ghost use Rattle.std.specs.Prelude.{◌≡◌};
ghost use Rattle.calls.specs.Call.{call};
ghost use Rattle.operation_calls.specs.Operations.{check_hard_call};

use calls::leave_number;
use checker::check;
use claims::claim::Claim;
use directory::Row;

// "No timetable" at any cost, with the number of steps in *value; or 1 to 6, 8, 9, 14 to 19, 22. The stores are zero afterwards.
#[unsafe(no_mangle)]
pub extern "C" fn timetable_check_hard(
    file: &[u8],
    proof: &[u8],
    words: &mut [u32],
    rows: &mut [Row],
    marks: &mut [u8],
    value: &mut u64,
) -> u32
    ensures { call result value.new (words.new, rows.new, marks.new)
        ≡ check_hard_call file.now proof.now
        (words.old, rows.old, marks.old) }
{
    let claim = Claim::AnyCost;
    let answer = check(file, claim, proof, words, rows, marks);
    leave_number(answer, value)
}
