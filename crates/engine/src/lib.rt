// The engine's operations as C functions, which include/timetable.h declares.
//
// Each but the idle step, which refuses nothing, answers 0 if it is accepted, and else the number of the first refusal in document
// 01's order. Its contract is one equation: what the call leaves (the number returned, *value and every other output) is what the
// crates calls and operation_calls say of the operation's answer by the definitions. An input is lent as `&`, so it keeps every
// byte. None asks anything of its caller but good pointers. proofs/Demand1.antt has the twelve equations together.
#![tactic(auto)]

mod best_model;
mod check_hard;
mod idle;
mod solver;

ghost use Rattle.std.specs.Prelude.{◌≡◌};
ghost use Rattle.scope.specs.Operations.{read_of, same_sheet_of, score_of, sizes_of, text_size_of};
ghost use Rattle.calls.specs.Call.{call, leaves};
ghost use Rattle.calls.specs.Outputs.{amounts, formula_size, instance_size, leaves_sameness};
ghost use Rattle.operation_calls.specs.Operations.{check_call, decode_call, text_call};

pub use best_model::timetable_best;
use calls::{leave_length, leave_number, leave_sameness};
pub use check_hard::timetable_check_hard;
use checker::check;
use claims::claim::Claim;
use decode_call::leave_evaluation;
use directory::Row;
pub use idle::timetable_idle_step;
use instance::read_instance;
use many_outputs::{leave_amounts, leave_counts, leave_sizes};
use model::evaluate;
use sheet::{same_sheet, score};
use sizes::sizes;
pub use solver::timetable_solver_text;
use text::{text, text_size};

// Reads an instance file: how much it holds, or 1 to 6, 19, 22.
#[unsafe(no_mangle)]
pub extern "C" fn timetable_read(
    file: &[u8],
    times: &mut u64,
    events: &mut u64,
    resources: &mut u64,
    groups: &mut u64,
    constraints: &mut u64,
    value: &mut u64,
) -> u32
    ensures { call result value.new
        (instance_size times.new events.new resources.new groups.new constraints.new)
        ≡ leaves (read_of file.now) value.old
        (instance_size times.old events.old resources.old groups.old constraints.old) }
{
    let answer = read_instance(file);
    leave_counts(answer, times, events, resources, groups, constraints, value)
}

// What stores the hard clauses and the tail for a bound need, or 1 to 8, 19, 22.
#[unsafe(no_mangle)]
pub extern "C" fn timetable_sizes(
    file: &[u8],
    bound: u64,
    variables: &mut u64,
    clauses: &mut u64,
    words: &mut u64,
    value: &mut u64,
) -> u32
    ensures { call result value.new (formula_size variables.new clauses.new words.new)
        ≡ leaves (sizes_of file.now bound) value.old
        (formula_size variables.old clauses.old words.old) }
{
    let answer = sizes(file, bound);
    leave_sizes(answer, variables, clauses, words, value)
}

// The infeasibility and the objective of a timetable, or 1 to 6, 10 to 12, 19, 22.
#[unsafe(no_mangle)]
pub extern "C" fn timetable_score(
    file: &[u8],
    table: &[u8],
    infeasibility: &mut u64,
    objective: &mut u64,
    value: &mut u64,
) -> u32
    ensures { call result value.new (amounts infeasibility.new objective.new)
        ≡ leaves (score_of file.now table.now) value.old
        (amounts infeasibility.old objective.old) }
{
    let answer = score(file, table);
    leave_amounts(answer, infeasibility, objective, value)
}

// Whether two timetables are the same sheet, 1 or 0 in *value, or 1 to 6, 10 to 12, 19, 22.
#[unsafe(no_mangle)]
pub extern "C" fn timetable_same_sheet(
    file: &[u8],
    first: &[u8],
    second: &[u8],
    value: &mut u64,
) -> u32
    ensures { call result value.new tt
        ≡ leaves_sameness (same_sheet_of file.now first.now second.now) }
{
    let answer = same_sheet(file, first, second);
    leave_sameness(answer, value)
}

// The length of the clauses as text, or 1 to 6, 8, 19, 22.
#[unsafe(no_mangle)]
pub extern "C" fn timetable_text_size(file: &[u8], bytes: &mut u64, value: &mut u64) -> u32
    ensures { call result value.new bytes.new
        ≡ leaves (text_size_of file.now) value.old bytes.old }
{
    let answer = text_size(file);
    leave_length(answer, bytes, value)
}

// The clauses as text at the front of out, their length in *value; or 1 to 6, 8, 9, 19, 22.
#[unsafe(no_mangle)]
pub extern "C" fn timetable_text(file: &[u8], out: &mut [u8], value: &mut u64) -> u32
    ensures { call result value.new out.new ≡ text_call file.now out.old }
{
    let answer = text(file, out);
    leave_number(answer, value)
}

// How many bytes of a model, from its first, are the timetable, in *value, and its cost; or 1 to 6, 8, 10, 11, 13, 19, 22.
#[unsafe(no_mangle)]
pub extern "C" fn timetable_decode(
    file: &[u8],
    model: &[u8],
    objective: &mut u64,
    value: &mut u64,
) -> u32
    ensures { call result value.new objective.new
        ≡ decode_call file.now model.now objective.old }
{
    let answer = evaluate(file, model);
    leave_evaluation(answer, objective, value)
}

// "No timetable", with the number of steps in *value; or 1 to 9, 14 to 19, 22. The stores are zero afterwards.
#[unsafe(no_mangle)]
pub extern "C" fn timetable_check(
    file: &[u8],
    bound: u64,
    proof: &[u8],
    words: &mut [u32],
    rows: &mut [Row],
    marks: &mut [u8],
    value: &mut u64,
) -> u32
    ensures { call result value.new (words.new, rows.new, marks.new)
        ≡ check_call file.now bound proof.now
        (words.old, rows.old, marks.old) }
{
    let claim = Claim::Bound(bound);
    let answer = check(file, claim, proof, words, rows, marks);
    leave_number(answer, value)
}
