// Whether some bytes are a timetable (10 to 12).
ghost use Rattle.std.specs.Prelude.{◌≡◌, length};
ghost use Rattle.instance.specs.Start.{SizesIn};
ghost use Rattle.verdict.specs.Answers.{VerdictOf};

use constraint::Head;
use scope::Refusal;
use timetable::check::checked;

// For an instance with these sizes and durations.
pub fn verdict_of(bytes: &[u8], durations: &[u8], head: Head) -> Result<(), Refusal>
    requires { SizesIn head.times head.events head.resources × (length durations.now ≡ 1024) }
    ensures { VerdictOf bytes.now durations.now head result }
{
    checked(bytes, durations, head.events as usize, head.times as usize)
}
