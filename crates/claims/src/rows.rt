// The hard clauses, and the rows of the tail's counter, as words: each clause's last word is marked by 2^31.
ghost use mathlib.Core.List.{flat_map};
ghost use Rattle.std.specs.Prelude.{◌+◌, ◌*◌, ◌≤◌, ◌<◌, length};
ghost use Rattle.scope.specs.Formula.{hard_of, soft_of};
ghost use Rattle.instance.specs.Answers.{instance_of};
ghost use Rattle.sink.specs.Run.{Ran, out, put};
ghost use Rattle.sink.specs.Block.{mark};
ghost use Rattle.clauses.specs.Writable.{Writable};
ghost use Rattle.claims.specs.Written.{RowsPut};

use clauses::write_formula;
use constraint::Head;
use sink::{Job, Mode, Sink};

// The hard clauses; the position after them.
pub fn write_hard(
    words: &mut [u32],
    file: &[u8],
    head: Head,
    durations: &[u8],
    resources: &[u8],
    groups: &[u8],
    list: &mut [u16],
) -> usize
    requires { Writable file.now durations.now resources.now groups.now list.old head }
    ensures { Ran put (flat_map mark (hard_of (instance_of file.now durations.now resources.now groups.now head)))
        (out 0 words.old) (out result words.new) }
{
    let model = [0; 1];
    let mut text = [0; 1];
    let job = Job {
        mode: Mode::Words,
        top: 0,
        cols: 0,
    };
    let start = Sink {
        at: 0,
        bad: 0,
        lost: 0,
        prev: 0,
        row: 0,
    };
    let s = write_formula(
        job, &model, &mut text, words, start, file, head, durations, resources, groups, list,
    );
    s.at
}

// The rows of the tail's counter, from a variable on (no plainer as one function with the other, which differs in all that it passes).
pub fn write_rows(
    words: &mut [u32],
    at: usize,
    cols: u32,
    first: u32,
    file: &[u8],
    head: Head,
    durations: &[u8],
    resources: &[u8],
    groups: &[u8],
    list: &mut [u16],
) -> Sink
    requires writable { Writable file.now durations.now resources.now groups.now list.old head × (at ≤ 9223372036854775807) }
    requires first_nonzero { (0 < first) × (first + length (soft_of (instance_of file.now durations.now resources.now groups.now head)) * cols ≤ 1073741824) }
    ensures { RowsPut (soft_of (instance_of file.now durations.now resources.now groups.now head)) cols first at
        words.old result words.new }
{
    let model = [0; 1];
    let mut text = [0; 1];
    let job = Job {
        mode: Mode::Tail,
        top: 0,
        cols,
    };
    let start = Sink {
        at,
        bad: 0,
        lost: 0,
        prev: 0,
        row: first,
    };
    write_formula(
        job, &model, &mut text, words, start, file, head, durations, resources, groups, list,
    )
}
