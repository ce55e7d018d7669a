// What an answer leaves with a caller in C: the number that is returned, *value and the other outputs.
//
// One function for each sort of answer, so that the exported functions are an operation and one of these. Its contract is one
// equation with specs/Call.antt, for every answer and whatever stood in the outputs. Crate many_outputs has the answers of
// several numbers. One function over a closure that writes the outputs would need a contract on what it writes, longer than
// these matches.
#![tactic(auto)]

ghost use Rattle.std.specs.Prelude.{◌≡◌};
ghost use Rattle.scope.specs.Reason.{number_of};
ghost use Rattle.scope.specs.Answers.{means};
ghost use Rattle.calls.specs.Call.{call, called, leaves};
ghost use Rattle.calls.specs.Outputs.{leaves_sameness};

use scope::{Objective, Refusal};

// A refusal: its value goes to *value, its number is returned.
pub fn refuse(f: Refusal, value: &mut u64) -> u32
    ensures { (result ≡ number_of f.reason) × (value.new ≡ f.value) }
{
    *value = f.value;
    u32::from(f.reason.number())
}

// Whether two timetables are the same sheet.
pub fn leave_sameness(answer: Result<bool, Refusal>, value: &mut u64) -> u32
    ensures { call result value.new tt ≡ leaves_sameness (means answer) }
{
    match answer {
        Ok(same) => {
            *value = u64::from(same);
            0
        }
        Err(f) => refuse(f, value),
    }
}

// A length in an output of its own.
pub fn leave_length(answer: Result<u64, Refusal>, bytes: &mut u64, value: &mut u64) -> u32
    ensures { call result value.new bytes.new ≡ leaves (means answer) value.old bytes.old }
{
    match answer {
        Ok(length) => {
            *bytes = length;
            0
        }
        Err(f) => refuse(f, value),
    }
}

// The length of what was written, or the number of a proof's steps, in *value.
pub fn leave_number(answer: Result<u64, Refusal>, value: &mut u64) -> u32
    ensures { call result value.new tt ≡ called {B = Unit} (means answer) (λ n. (n, tt)) tt }
{
    match answer {
        Ok(number) => {
            *value = number;
            0
        }
        Err(f) => refuse(f, value),
    }
}

// A best model's cost, and in *value the number of a proof's steps.
pub fn leave_best(
    answer: Result<(Objective, u64), Refusal>,
    objective: &mut u64,
    value: &mut u64,
) -> u32
    ensures { call result value.new objective.new
        ≡ called (means answer) (λ b. (b.1, b.0.0)) objective.old }
{
    match answer {
        Ok((w, count)) => {
            *objective = w.0;
            *value = count;
            0
        }
        Err(f) => refuse(f, value),
    }
}
