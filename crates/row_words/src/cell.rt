// The words of one cell.
ghost use Rattle.std.specs.Prelude.{[], ◌∷◌, ◌+◌, ◌≤◌, ◌<◌, length};
ghost use Rattle.scope.specs.Cnf.{gate_clauses};
ghost use Rattle.row_words.specs.Literals.{Literal};
ghost use Rattle.row_words.specs.Cells.{cell_at, WordsAt, StoredAt};

use super::opposite;
use sink::LAST;

// Two words from a place on.
fn pair(words: &mut [u32], at: usize, a: u32, b: u32) -> usize
    requires { at + 2 ≤ length words.old }
    ensures { WordsAt at result words.old words.new (a ∷ b ∷ []) }
{
    words[at] = a;
    words[at + 1] = b;
    at + 2
}

// A clause of three literals.
fn triple(words: &mut [u32], at: usize, a: u32, b: u32, c: u32) -> usize
    requires { at + 3 ≤ length words.old }
    ensures { WordsAt at result words.old words.new (a ∷ b ∷ c ∷ []) }
{
    words[at] = a;
    words[at + 1] = b;
    words[at + 2] = c;
    at + 3
}

// The words of the cell in column j of the row at first, over the row at prev, stored from a place on.
pub fn cell_words(
    words: &mut [u32],
    at: usize,
    x: u32,
    w: u32,
    prev: u32,
    first: u32,
    j: u32,
) -> usize
    requires { Literal x × (1 ≤ first) × (first + j < 1073741824) × (prev + j < 1073741824) × (at + 11 ≤ length words.old) }
    ensures { StoredAt at result words.old words.new (gate_clauses (cell_at x w prev j) (first + j)) }
{
    let c = 2 * (first + j);
    let yes = c + LAST;
    let no = c + 1 + LAST;
    if prev == 0 {
        if j < w {
            let p = pair(words, at, opposite(x), yes);
            return pair(words, p, x, no);
        }
        return triple(words, at, x, no, no);
    }
    let a = 2 * (prev + j);
    let p = pair(words, at, a + 1, yes);
    if j < w {
        let q = pair(words, p, opposite(x), yes);
        return triple(words, q, x, a, no);
    }
    let b = 2 * (prev + (j - w));
    let q = triple(words, p, opposite(x), b + 1, yes);
    let r = triple(words, q, x, a, no);
    triple(words, r, b, a, no)
}
