// Counters: a cell, a row, all rows.
ghost use Rattle.std.specs.Prelude.{◌≡◌, true, [], ◌∷◌, map, ◌+◌, ◌*◌, ◌≤◌, ◌<◌, length};
ghost use Rattle.scope.specs.Cnf.{gate, gate_clauses};
ghost use Rattle.scope.specs.Formula.{no_row, ones, row, counter};
ghost use Rattle.sink.specs.Run.{Ran};
ghost use Rattle.sink.specs.Lines.{lines};
ghost use Rattle.sink.specs.World.{world, step, row_over};
ghost use Rattle.row_words.specs.Literals.{Literal, Literals};
ghost use Rattle.row_words.specs.Cells.{cell_at, StoredAt};

use row_size::row_size;
use row_text::{row_text, spellable};
use row_value::{row_clauses, row_right};
use row_words::{cell_words, row_words};
use sink::{Job, Mode, Sink, room};

// One cell of a counter.
fn write_cell(
    job: Job,
    model: &[u8],
    text: &mut [u8],
    words: &mut [u32],
    s: Sink,
    x: u32,
    w: u32,
    prev: u32,
    first: u32,
    j: u32,
) -> Sink
    requires { Literal x × (1 ≤ first) × (first + j < 1073741824) × (prev + j < 1073741824) }
    ensures { Ran (step job model.now) (lines (first + j) (gate (cell_at x w prev j) ∷ []))
        (world s text.old words.old) (world result text.new words.new) }
{
    // of fixed size: there is no heap
    let mut block = [0u32; 11];
    let n = cell_words(&mut block, 0, x, w, prev, first, j);
    sink::emit(job, model, text, words, s, &block[..n])
}

// The cells of a row, one by one.
fn write_cells(
    job: Job,
    model: &[u8],
    text: &mut [u8],
    words: &mut [u32],
    s: Sink,
    x: u32,
    w: u32,
    prev: u32,
    first: u32,
    cols: u32,
) -> Sink
    requires { Literal x × (1 ≤ first) × (first + cols ≤ 1073741824) × (prev + cols ≤ 1073741824) }
    ensures { Ran (step job model.now) (lines first (map gate (row (row_over prev) w x 1 cols)))
        (world s text.old words.old) (world result text.new words.new) }
{
    let mut z = s;
    for j in 0..cols {
        z = write_cell(job, model, text, words, z, x, w, prev, first, j);
    }
    z
}

// One row of a counter: the row at first over the row at prev, for a literal of a weight. Each mode has a short way for a whole
// row; cells are written one by one where it does not apply. In a model each variable is compared with its gate's value.
pub fn write_row(
    job: Job,
    model: &[u8],
    text: &mut [u8],
    words: &mut [u32],
    s: Sink,
    x: u32,
    w: u32,
    prev: u32,
    first: u32,
    cols: u32,
) -> Sink
    requires { Literal x × (1 ≤ first) × (first + cols ≤ 1073741824) × (prev + cols ≤ 1073741824) }
    ensures { Ran (step job model.now) (lines first (map gate (row (row_over prev) w x 1 cols)))
        (world s text.old words.old) (world result text.new words.new) }
{
    let at = s.at;
    let n = cols as usize;
    match job.mode {
        Mode::Measure => {
            if let Some(size) = row_size(job.top, x, w, prev, first, cols) {
                return sink::passed(s, size);
            }
        }
        Mode::Text => {
            if room(s, 139 * n, text.len()) && w == 1 && spellable(job.top, x, prev, first, cols) {
                return sink::placed(s, row_text(text, at, job.top as u32, x, prev, first, cols));
            }
        }
        Mode::Words => {
            if room(s, 11 * n, words.len()) {
                return sink::placed(s, row_words(words, at, x, w, prev, first, cols));
            }
        }
        Mode::Evaluate => {
            if row_right(model, x, w, prev, first, cols) {
                return sink::passed(s, row_clauses(w, prev, cols));
            }
        }
        Mode::SoftText | Mode::Tail => {
            return s;
        }
    }
    write_cells(job, model, text, words, s, x, w, prev, first, cols)
}

// A counter over literals of the weight 1, from the variable first on.
pub fn write_counter(
    job: Job,
    model: &[u8],
    text: &mut [u8],
    words: &mut [u32],
    s: Sink,
    lits: &[u32],
    first: u32,
    cols: u32,
) -> Sink
    requires { Literals lits.now × (1 ≤ first) × (first + length lits.now * cols ≤ 1073741824) }
    ensures { Ran (step job model.now) (lines first (map gate (counter no_row (ones lits.now) cols first)))
        (world s text.old words.old) (world result text.new words.new) }
{
    if sink::skips(job) {
        return s;
    }
    let mut z = s;
    let mut prev = 0;
    let mut next = first;
    for l in lits {
        z = write_row(job, model, text, words, z, *l, 1, prev, next, cols);
        prev = next;
        next += cols;
    }
    z
}
