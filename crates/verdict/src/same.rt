// Whether two timetables have the same Y bytes.
ghost use Rattle.std.specs.Prelude.{◌≡◌, List, ℕ, length};
ghost use Rattle.scope.specs.Operations.{same_sheet_of};
ghost use Rattle.scope.specs.Answers.{means};
ghost use Rattle.instance.specs.Laws.{Accepted};
ghost use Rattle.instance.specs.Start.{SizesIn};

use crate::judged::verdict_of;
use constraint::Head;
use scope::Refusal;

// Whether two timetables of an instance with these sizes and durations have the same Y bytes, or refusals 10 to 12 of the first,
// then of the second.
pub fn same_read(first: &[u8], second: &[u8], head: Head, durations: &[u8]) -> Result<bool, Refusal>
    requires { SizesIn head.times head.events head.resources × (length durations.now ≡ 1024) }
    ensures { (s te tg : List ℕ) → Accepted s durations.now te tg head → means result ≡ same_sheet_of s first.now second.now }
{
    verdict_of(first, durations, head)?;
    verdict_of(second, durations, head)?;
    let cells = first.len() / 2;
    Ok(first[..cells] == second[..cells])
}
