// Block 1: the clauses of starts, event by event and time by time.
ghost use mathlib.Core.List.{flat_map};
ghost use Rattle.std.specs.Prelude.{◌+◌, ◌≤◌, ◌<◌};
ghost use Rattle.scope.specs.Kinds.{up_to};
ghost use Rattle.sink.specs.Run.{Ran};
ghost use Rattle.sink.specs.Lines.{lines};
ghost use Rattle.sink.specs.World.{world, step};
ghost use Rattle.literals.specs.Variables.{Block};
ghost use Rattle.literals.specs.Numbered.{start_clauses};

use sink::{Job, Sink};

// Those of one event; events count from 0 here. They have no gates, and so the number of the next variable is of no matter.
fn write_event_starts(
    job: Job,
    model: &[u8],
    text: &mut [u8],
    words: &mut [u32],
    s: Sink,
    times: u32,
    starts: u32,
    e: u32,
) -> Sink
    requires { Block times starts × (e < 1024) }
    ensures { Ran (step job model.now) (lines 0 (flat_map (start_clauses times starts (e + 1)) (up_to times)))
        (world s text.old words.old) (world result text.new words.new) }
{
    let y = e * times;
    let v = starts + y;
    let mut z = s;
    for t in 0..times {
        z = gates::clauses::write_start(
            job,
            model,
            text,
            words,
            z,
            t == 0,
            y + (t + 1),
            v + (t + 1),
        );
    }
    z
}

// Those of all events.
fn write_all_starts(
    job: Job,
    model: &[u8],
    text: &mut [u8],
    words: &mut [u32],
    s: Sink,
    events: u32,
    times: u32,
    starts: u32,
) -> Sink
    requires { Block times starts × (events ≤ 1024) }
    ensures { Ran (step job model.now)
        (lines 0 (flat_map (λ e. flat_map (start_clauses times starts e) (up_to times)) (up_to events)))
        (world s text.old words.old) (world result text.new words.new) }
{
    let mut z = s;
    for e in 0..events {
        z = write_event_starts(job, model, text, words, z, times, starts, e);
    }
    z
}

// The same, passed over at once by a run that drops hard clauses.
pub fn write_starts(
    job: Job,
    model: &[u8],
    text: &mut [u8],
    words: &mut [u32],
    s: Sink,
    events: u32,
    times: u32,
    starts: u32,
) -> Sink
    requires { Block times starts × (events ≤ 1024) }
    ensures { Ran (step job model.now)
        (lines 0 (flat_map (λ e. flat_map (start_clauses times starts e) (up_to times)) (up_to events)))
        (world s text.old words.old) (world result text.new words.new) }
{
    if sink::skips(job) {
        return s;
    }
    write_all_starts(job, model, text, words, s, events, times, starts)
}
