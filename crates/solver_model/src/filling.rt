// A store filled with the model: 9, 10, 20, then 21.
ghost use Rattle.std.specs.Prelude.{◌≡◌, ◌≤◌, length, replicate};
ghost use Rattle.scope.specs.SolverText.{model_in};
ghost use Rattle.solver_model.specs.Filled.{given_means, settled_means, FilledAs};

use crate::settling::settle;
use scope::{Reason, Refusal};
use solver_lines::read_lines;

// 21 with the lowest variable that is missing or given twice.
fn judge(s: Result<(), u64>) -> Result<(), Refusal>
    ensures { result ≡ settled_means s }
{
    s.map_err(|v| Refusal {
        reason: Reason::NotGivenOnce,
        value: v,
    })
}

// 20 and 21, with a store of a 0 for each variable.
fn gather(text: &[u8], store: &mut [u8]) -> Result<(), Refusal>
    requires { (store.old ≡ replicate (length store.old) 0) × (length store.old ≤ 8000000) }
    ensures { given_means result store.new ≡ model_in (length store.old) text.now }
{
    match read_lines(text, store) {
        Ok(_) => judge(settle(store)),
        Err(at) => Err(Refusal {
            reason: Reason::BadSolverText,
            value: at as u64,
        }),
    }
}

// The model of so many variables, at the front of a store of zeros, for a lent model of so many bytes.
pub fn fill(
    text: &[u8],
    model_length: usize,
    variables: u64,
    store: &mut [u8],
) -> Result<(), Refusal>
    requires { (store.old ≡ replicate (length store.old) 0) × (variables ≤ 8000000) }
    ensures { FilledAs variables text.now model_length store.old store.new result }
{
    if (store.len() as u64) < variables {
        return Err(Refusal {
            reason: Reason::TooShort,
            value: 0,
        });
    }
    if model_length as u64 != variables {
        return Err(Refusal {
            reason: Reason::WrongLength,
            value: variables,
        });
    }
    gather(text, &mut store[..model_length])
}
