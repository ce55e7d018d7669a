// The score of a timetable of an accepted file.
ghost use Rattle.std.specs.Prelude.{◌≡◌};
ghost use Rattle.scope.specs.Operations.{score_of};
ghost use Rattle.scope.specs.Answers.{means};
ghost use Rattle.instance.specs.Laws.{Accepted};
ghost use Rattle.instance.specs.Stores.{Stores};

use crate::judged::verdict_of;
use constraint::Head;
use scope::{Infeasibility, Objective, Refusal};
use score::score_of;

// The two amounts, or refusals 10 to 12.
pub fn score_read(
    file: &[u8],
    bytes: &[u8],
    head: Head,
    durations: &[u8],
    resources: &[u8],
    groups: &[u8],
    list: &mut [u16],
) -> Result<(Infeasibility, Objective), Refusal>
    requires { Accepted file.now durations.now resources.now groups.now head × Stores file.now durations.now resources.now groups.now list.old }
    ensures { means result ≡ score_of file.now bytes.now }
{
    verdict_of(bytes, durations, head)?;
    let s = score_of(file, bytes, head, resources, groups, list);
    Ok((s.infeasibility, s.objective))
}
