// Refusals 10 and 11: whether a model has a byte, 0 or 1, for each variable.
ghost use Rattle.model.specs.Answers.{FormOf};

use scope::{Reason, Refusal};
use timetable::bytes::first_above;

// Whether bytes may be a model.
pub fn form_of(model: &[u8], variables: u64) -> Result<(), Refusal>
    ensures { FormOf variables model.now result }
{
    let size = model.len() as u64;
    if size != variables {
        return Err(Refusal {
            reason: Reason::WrongLength,
            value: variables,
        });
    }
    match first_above(model) {
        Some(k) => Err(Refusal {
            reason: Reason::AboveOne,
            value: k,
        }),
        None => Ok(()),
    }
}
