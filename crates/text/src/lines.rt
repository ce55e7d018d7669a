// The formula's lines.
ghost use Rattle.std.specs.Prelude.{◌≤◌};
ghost use Rattle.instance.specs.Answers.{instance_of};
ghost use Rattle.sink.specs.Run.{out};
ghost use Rattle.clauses.specs.Writable.{Writable};
ghost use Rattle.text.specs.Lines.{LinesRan};

use clauses::write_formula;
use constraint::Head;
use sink::{Job, Mode, Sink};

// One run over the formula with a text alone: its hard lines, its soft lines, or the length of both, by the mode.
pub fn run_lines(
    mode: Mode,
    top: u64,
    text: &mut [u8],
    at: usize,
    file: &[u8],
    head: Head,
    durations: &[u8],
    resources: &[u8],
    groups: &[u8],
    list: &mut [u16],
) -> usize
    requires { Writable file.now durations.now resources.now groups.now list.old head × (at ≤ 9223372036854775807) }
    ensures { LinesRan mode top (instance_of file.now durations.now resources.now groups.now head)
        (out at text.old) (out result text.new) }
{
    let model = [0u8; 1];
    let mut words = [0u32; 1];
    let s = write_formula(
        Job { mode, top, cols: 0 },
        &model,
        text,
        &mut words,
        Sink {
            at,
            bad: 0,
            lost: 0,
            prev: 0,
            row: 0,
        },
        file,
        head,
        durations,
        resources,
        groups,
        list,
    );
    s.at
}
