// The blocks before the constraints.
ghost use Rattle.std.specs.Prelude.{◌+◌};
ghost use Rattle.sink.specs.World.{world, step};
ghost use Rattle.list_nodes.specs.Ground.{layout_of};
ghost use Rattle.items.specs.Written.{Wrote};
ghost use Rattle.clauses.specs.Blocks.{Begun, before_items};

use constraint::Head;
use items::Written;
use sink::{Job, Sink};

// Starts, uses and durations.
pub fn write_before(
    job: Job,
    model: &[u8],
    text: &mut [u8],
    words: &mut [u32],
    s: Sink,
    head: Head,
    durations: &[u8],
    users: &[u16],
) -> Written
    requires { Begun durations.now users.now head }
    ensures { Wrote (step job model.now) ((layout_of head).primary + 1) (before_items durations.now users.now head)
        (world s text.old words.old) (world result.sink text.new words.new) result.next }
{
    let times = head.times;
    let events = head.events;
    let count = head.resources;
    let l = literals::numbering(times, events, count);
    let a = blocks::write_starts(job, model, text, words, s, events, times, l.starts);
    let v = l.primary + 1;
    let b = blocks::write_uses(job, model, text, words, a, users, count, times, v);
    let next = l.others + 1;
    blocks::write_durations(job, model, text, words, b, durations, events, times, next)
}
