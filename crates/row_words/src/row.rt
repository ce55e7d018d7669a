// Rows as words, where there is room for all.
ghost use Rattle.std.specs.Prelude.{◌≡◌, ◌+◌, ◌*◌, ◌≤◌, length};
ghost use mathlib.Core.List.{flat_map};
ghost use Rattle.scope.specs.Formula.{row};
ghost use Rattle.sink.specs.Run.{Ran, out, put};
ghost use Rattle.sink.specs.Lines.{gates_clauses};
ghost use Rattle.sink.specs.Block.{mark};
ghost use Rattle.sink.specs.World.{row_over};
ghost use Rattle.row_words.specs.Literals.{Literal};

use super::cell_words;

// The words of the row at first over the row at prev, for a literal of a weight.
pub fn row_words(
    words: &mut [u32],
    at: usize,
    x: u32,
    w: u32,
    prev: u32,
    first: u32,
    cols: u32,
) -> usize
    requires { Literal x × (1 ≤ first) × (first + cols ≤ 1073741824) × (prev + cols ≤ 1073741824) × (at + 11 * cols ≤ length words.old) }
    ensures { Ran put (flat_map mark (gates_clauses first (row (row_over prev) w x 1 cols))) (out at words.old) (out result words.new) }
{
    let mut p = at;
    for j in 0..cols {
        p = cell_words(words, p, x, w, prev, first, j);
    }
    p
}
