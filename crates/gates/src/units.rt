// Hard and soft units.
ghost use Rattle.std.specs.Prelude.{◌≡◌, [], ◌∷◌};
ghost use Rattle.sink.specs.Run.{Ran};
ghost use Rattle.sink.specs.Lines.{soft_line};
ghost use Rattle.sink.specs.World.{world, step, tail_row};
ghost use Rattle.counters.specs.Literals.{Literal};
ghost use Rattle.gates.specs.Units.{unit_line};

use sink::{Job, LAST, Mode, Sink};

// A soft unit's row in the tail's counter.
fn write_tail(
    job: Job,
    model: &[u8],
    text: &mut [u8],
    words: &mut [u32],
    s: Sink,
    weight: u32,
    l: u32,
) -> Sink
    requires { Literal l }
    ensures { world result text.new words.new ≡ tail_row job.cols weight l (world s text.old words.old) }
{
    let prev = s.prev;
    let first = s.row;
    let cols = job.cols;
    if first == 0 {
        return s;
    }
    if 1073741824 < prev as u64 + cols as u64 {
        return s;
    }
    if 1073741824 < first as u64 + cols as u64 {
        return s;
    }
    let k = Job {
        mode: Mode::Words,
        ..job
    };
    let r = counters::cells::write_row(
        k,
        model,
        text,
        words,
        s,
        row_words::opposite(l),
        weight,
        prev,
        first,
        cols,
    );
    Sink {
        prev: first,
        row: first + cols,
        ..r
    }
}

// One soft unit, by mode.
fn write_soft(
    job: Job,
    model: &[u8],
    text: &mut [u8],
    words: &mut [u32],
    s: Sink,
    weight: u32,
    l: u32,
) -> Sink
    requires { Literal l }
    ensures { Ran (step job model.now) (soft_line weight l ∷ [])
        (world s text.old words.old) (world result text.new words.new) }
{
    match job.mode {
        Mode::Measure => {
            let k = Job {
                mode: Mode::Measure,
                top: weight as u64,
                ..job
            };
            sink::emit(k, model, text, words, s, &[l + LAST])
        }
        Mode::SoftText => {
            let k = Job {
                mode: Mode::Text,
                top: weight as u64,
                ..job
            };
            sink::emit(k, model, text, words, s, &[l + LAST])
        }
        Mode::Text | Mode::Words => s,
        Mode::Evaluate => sink::judge::charge(model, s, weight, l),
        Mode::Tail => write_tail(job, model, text, words, s, weight, l),
    }
}

// A unit of a weight: hard where the weight is 0.
pub fn write_unit(
    job: Job,
    model: &[u8],
    text: &mut [u8],
    words: &mut [u32],
    s: Sink,
    weight: u32,
    l: u32,
) -> Sink
    requires { Literal l }
    ensures { Ran (step job model.now) (unit_line weight l ∷ [])
        (world s text.old words.old) (world result text.new words.new) }
{
    if weight == 0 {
        return sink::emit(job, model, text, words, s, &[l + LAST]);
    }
    write_soft(job, model, text, words, s, weight, l)
}
