// Counted lists: a counter and the units of its bounds.
#![tactic(auto)]

ghost use Rattle.std.specs.Prelude.{◌≡◌, true, false, ◌+◌, ◌-◌, ◌*◌, ◌≤◌, ◌<◌, length};
ghost use Rattle.scope.specs.Formula.{high_units, short_units, count_into};
ghost use Rattle.sink.specs.Run.{Ran};
ghost use Rattle.sink.specs.Lines.{lines};
ghost use Rattle.sink.specs.World.{world, step, row_over};
ghost use Rattle.counters.specs.Literals.{Literal, Literals};
ghost use Rattle.counts.specs.UnitLines.{turned, units_from, short_lines};
ghost use Rattle.counts.specs.CountLines.{rule_of, low_items};

use constraint::Bounds;
use sink::{Job, Sink};

// Column j of the row whose first variable is q.
fn column(q: u32, j: u32) -> u32
    requires { (1 ≤ q) × (1 ≤ j) × (q + j ≤ 1073741824) }
    ensures { (result ≡ row_over q j) × Literal result }
{
    2 * (q + j - 1)
}

// The same, or its opposite.
fn bound_literal(high: bool, q: u32, j: u32) -> u32
    requires { (1 ≤ q) × (1 ≤ j) × (q + j ≤ 1073741824) }
    ensures { (result ≡ turned high (row_over q j)) × Literal result }
{
    let l = column(q, j);
    if high {
        return row_words::opposite(l);
    }
    l
}

// So many units of a weight on the row at q, from a column on.
fn write_units(
    job: Job,
    model: &[u8],
    text: &mut [u8],
    words: &mut [u32],
    s: Sink,
    weight: u32,
    high: bool,
    q: u32,
    start: u32,
    count: u32,
) -> Sink
    requires { (1 ≤ q) × (1 ≤ start) × (q + start + count ≤ 1073741825) }
    ensures { Ran (step job model.now) (units_from weight (λ j. turned high (row_over q j)) start count)
        (world s text.old words.old) (world result text.new words.new) }
{
    let mut z = s;
    for i in 0..count {
        z = gates::units::write_unit(
            job,
            model,
            text,
            words,
            z,
            weight,
            bound_literal(high, q, start + i),
        );
    }
    z
}

// One variable of kind 6's low part, with its unit.
fn write_short_unit(
    job: Job,
    model: &[u8],
    text: &mut [u8],
    words: &mut [u32],
    s: Sink,
    weight: u32,
    c1: u32,
    cj: u32,
    v: u32,
) -> Sink
    requires { Literal c1 × Literal cj × (1 ≤ v) × (v < 1073741824) }
    ensures { Ran (step job model.now) (short_lines weight c1 cj v)
        (world s text.old words.old) (world result text.new words.new) }
{
    let z = gates::clauses::write_short(job, model, text, words, s, c1, cj, v);
    gates::units::write_unit(job, model, text, words, z, weight, 2 * v + 1)
}

// Kind 6's low part: so many variables from v on, for the columns from 2 on of the row at q.
fn write_shorts(
    job: Job,
    model: &[u8],
    text: &mut [u8],
    words: &mut [u32],
    s: Sink,
    weight: u32,
    q: u32,
    count: u32,
    v: u32,
) -> Sink
    requires { (1 ≤ q) × (q + count + 1 ≤ 1073741824) × (1 ≤ v) × (v + count ≤ 1073741824) }
    ensures { Ran (step job model.now) (lines v (short_units weight (row_over q) 2 count v))
        (world s text.old words.old) (world result text.new words.new) }
{
    let mut z = s;
    for i in 0..count {
        z = write_short_unit(
            job,
            model,
            text,
            words,
            z,
            weight,
            column(q, 1),
            column(q, 2 + i),
            v + i,
        );
    }
    z
}

// The low part of the bounds, on the row at q, from the variable v on.
fn write_low(
    job: Job,
    model: &[u8],
    text: &mut [u8],
    words: &mut [u32],
    s: Sink,
    weight: u32,
    b: Bounds,
    q: u32,
    v: u32,
) -> Sink
    requires { (1 ≤ q) × (q + b.lo ≤ 1073741824) × (1 ≤ v) × (v + b.lo ≤ 1073741824) }
    ensures { Ran (step job model.now) (lines v (low_items weight b (row_over q) v))
        (world s text.old words.old) (world result text.new words.new) }
{
    let lo = b.lo;
    if lo == 0 {
        return s;
    }
    if b.free {
        return write_shorts(job, model, text, words, s, weight, q, lo - 1, v);
    }
    if weight == 0 {
        return gates::units::write_unit(job, model, text, words, s, weight, column(q, lo));
    }
    write_units(job, model, text, words, s, weight, false, q, 1, lo)
}

// The high part of the bounds, on the row at q, for a list of n members.
fn write_high(
    job: Job,
    model: &[u8],
    text: &mut [u8],
    words: &mut [u32],
    s: Sink,
    weight: u32,
    hi: u32,
    q: u32,
    n: u32,
) -> Sink
    requires { (1 ≤ q) × (q + n ≤ 1073741824) }
    ensures { Ran (step job model.now) (lines 0 (high_units weight (row_over q) hi n))
        (world s text.old words.old) (world result text.new words.new) }
{
    if n <= hi {
        return s;
    }
    if weight == 0 {
        return gates::units::write_unit(
            job,
            model,
            text,
            words,
            s,
            weight,
            bound_literal(true, q, hi + 1),
        );
    }
    write_units(job, model, text, words, s, weight, true, q, hi + 1, n - hi)
}

// A counted list: its counter, from the variable first on, and the units of its bounds.
pub fn write_count(
    job: Job,
    model: &[u8],
    text: &mut [u8],
    words: &mut [u32],
    s: Sink,
    lits: &[u32],
    first: u32,
    cols: u32,
    weight: u32,
    b: Bounds,
) -> Sink
    requires { Literals lits.now × (1 ≤ first) × (first + length lits.now * cols + length lits.now ≤ 1073741824) × (b.lo ≤ length lits.now) }
    ensures { Ran (step job model.now) (lines first (count_into cols weight (rule_of b) lits.now first))
        (world s text.old words.old) (world result text.new words.new) }
{
    if lits.is_empty() {
        return s;
    }
    let n = lits.len() as u32;
    let q = first + (n - 1) * cols;
    let z = counters::cells::write_counter(job, model, text, words, s, lits, first, cols);
    let y = write_low(job, model, text, words, z, weight, b, q, first + n * cols);
    write_high(job, model, text, words, y, weight, b.hi, q, n)
}
