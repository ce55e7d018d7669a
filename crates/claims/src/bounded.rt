// The formula with its tail, as words from the start on.
ghost use mathlib.Core.List.{flat_map};
ghost use Rattle.scope.specs.Formula.{bounded_hard};
ghost use Rattle.instance.specs.Answers.{instance_of};
ghost use Rattle.sink.specs.Run.{Ran, out, put};
ghost use Rattle.sink.specs.Block.{mark};
ghost use Rattle.claims.specs.Bounded.{Bounding};

use crate::rows::{write_hard, write_rows};
use constraint::Head;
use sink::store::words_block;
use sizing::Size;

// The formula with its tail, which is empty without soft units.
pub fn write_bounded(
    words: &mut [u32],
    bound: u64,
    z: Size,
    file: &[u8],
    head: Head,
    durations: &[u8],
    resources: &[u8],
    groups: &[u8],
    list: &mut [u16],
) -> usize
    requires { Bounding file.now bound durations.now resources.now groups.now list.old head z }
    ensures { Ran put (flat_map mark (bounded_hard (instance_of file.now durations.now
        resources.now groups.now head) bound))
        (out 0 words.old) (out result words.new) }
{
    let at = write_hard(words, file, head, durations, resources, groups, list);
    if z.units == 0 {
        return at;
    }
    let cols = (bound + 1) as u32;
    let first = (z.variables + 1) as u32;
    let s = write_rows(
        words, at, cols, first, file, head, durations, resources, groups, list,
    );
    let last = s.prev + (cols - 1);
    let unit = [2 * last + 1 + 2147483648];
    words_block(words, s.at, &unit)
}
