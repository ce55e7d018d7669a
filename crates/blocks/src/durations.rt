// Block 3: Y of each event counted, to its duration.
ghost use Rattle.std.specs.Prelude.{◌+◌, take};
ghost use Rattle.sink.specs.World.{world, step};
ghost use Rattle.literals.specs.Numbered.{all_numbered, duration_lists};
ghost use Rattle.items.specs.Written.{Room, Wrote};
ghost use Rattle.blocks.specs.Durations.{Durations};

use constraint::Bounds;
use items::Written;
use sink::{Job, Sink};

pub fn write_durations(
    job: Job,
    model: &[u8],
    text: &mut [u8],
    words: &mut [u32],
    s: Sink,
    durations: &[u8],
    events: u32,
    times: u32,
    v: u32,
) -> Written
    requires { Durations durations.now events times × Room v (all_numbered 0 (duration_lists times 1 (take events durations.now)) v) }
    ensures { Wrote (step job model.now) v (all_numbered 0 (duration_lists times 1 (take events durations.now)) v)
        (world s text.old words.old) (world result.sink text.new words.new) result.next }
{
    // of fixed size: there is no heap
    let mut buf = [0u32; 125];
    let mut sink = s;
    let mut next = v;
    for e in 0..events {
        let n = literals::y_of_event(times, e + 1, &mut buf);
        let d = durations[e as usize] as u32;
        let b = Bounds {
            lo: d,
            hi: d,
            free: false,
        };
        let w = items::write_counted(job, model, text, words, sink, &buf[..n], 0, b, next);
        sink = w.sink;
        next = w.next;
    }
    Written { sink, next }
}
