// Rows as text, where every number has at most seven digits: each is turned into bytes once, and there is room for all.
#![tactic(auto)]

ghost use Rattle.std.specs.Prelude.{◌≡◌, true, ◌+◌, ◌*◌, ◌/◌, ◌≤◌, ◌<◌, length};
ghost use Rattle.scope.specs.Formula.{row};
ghost use Rattle.sink.specs.Run.{Ran, out, put};
ghost use Rattle.sink.specs.Lines.{gates_clauses};
ghost use Rattle.sink.specs.World.{row_over};
ghost use Rattle.sink.specs.Meaning.{hard_text};
ghost use Rattle.row_words.specs.Cells.{upper_clauses, lower_clauses, full_clauses, low_clauses};
ghost use Rattle.row_text.specs.Spellable.{Short, Spellable};

use digits::spelled::{Spelled, following, spell};
use sink::lines::{pair_line, triple_line};

// Whether the n numbers from v on are not 0 and have at most seven digits.
fn short(v: u64, n: u64) -> bool
    ensures { result ≡ true → Short v n }
{
    0 < v && v <= 10000000 && n <= 10000000 - v
}

// Whether all numbers of a row have.
pub fn spellable(top: u64, x: u32, prev: u32, first: u32, cols: u32) -> bool
    ensures { result ≡ true → Spellable top x prev first cols }
{
    0 < cols
        && short(top, 1)
        && short((x / 2) as u64, 1)
        && short(prev as u64, cols as u64)
        && short(first as u64, cols as u64)
}

// The cell in the first column: c below a, for the literal x with its number.
fn low_cell(
    text: &mut [u8],
    at: usize,
    top: Spelled,
    x: u32,
    number: Spelled,
    a: Spelled,
    c: Spelled,
) -> usize
    requires { (number.value ≡ x / 2) × (at + 139 ≤ length text.old) }
    ensures ran { Ran put (hard_text top.value (low_clauses x a.value c.value)) (out at text.old) (out result text.new) }
    ensures upper_bound { result ≤ at + 139 }
{
    let p = pair_line(text, at, top, 2 * a.value + 1, a, 2 * c.value, c);
    let q = pair_line(text, p, top, row_words::opposite(x), number, 2 * c.value, c);
    triple_line(text, q, top, x, number, 2 * a.value, a, 2 * c.value + 1, c)
}

// The clauses of a full cell that make c true: c below a, and b the column before a.
fn upper_lines(
    text: &mut [u8],
    at: usize,
    top: Spelled,
    x: u32,
    number: Spelled,
    a: Spelled,
    b: Spelled,
    c: Spelled,
) -> usize
    requires { (number.value ≡ x / 2) × (at + 65 ≤ length text.old) }
    ensures ran { Ran put (hard_text top.value (upper_clauses x a.value b.value c.value)) (out at text.old) (out result text.new) }
    ensures upper_bound { result ≤ at + 65 }
{
    let p = pair_line(text, at, top, 2 * a.value + 1, a, 2 * c.value, c);
    triple_line(
        text,
        p,
        top,
        row_words::opposite(x),
        number,
        2 * b.value + 1,
        b,
        2 * c.value,
        c,
    )
}

// And those that make it false.
fn lower_lines(
    text: &mut [u8],
    at: usize,
    top: Spelled,
    x: u32,
    number: Spelled,
    a: Spelled,
    b: Spelled,
    c: Spelled,
) -> usize
    requires { (number.value ≡ x / 2) × (at + 74 ≤ length text.old) }
    ensures ran { Ran put (hard_text top.value (lower_clauses x a.value b.value c.value)) (out at text.old) (out result text.new) }
    ensures upper_bound { result ≤ at + 74 }
{
    let p = triple_line(text, at, top, x, number, 2 * a.value, a, 2 * c.value + 1, c);
    triple_line(
        text,
        p,
        top,
        2 * b.value,
        b,
        2 * a.value,
        a,
        2 * c.value + 1,
        c,
    )
}

// A cell in a later column.
fn full_cell(
    text: &mut [u8],
    at: usize,
    top: Spelled,
    x: u32,
    number: Spelled,
    a: Spelled,
    b: Spelled,
    c: Spelled,
) -> usize
    requires { (number.value ≡ x / 2) × (at + 139 ≤ length text.old) }
    ensures ran { Ran put (hard_text top.value (full_clauses x a.value b.value c.value)) (out at text.old) (out result text.new) }
    ensures upper_bound { result ≤ at + 139 }
{
    let p = upper_lines(text, at, top, x, number, a, b, c);
    lower_lines(text, p, top, x, number, a, b, c)
}

// The lines of the row at first over the row at prev, for a literal of the weight 1.
pub fn row_text(
    text: &mut [u8],
    at: usize,
    top: u32,
    x: u32,
    prev: u32,
    first: u32,
    cols: u32,
) -> usize
    requires { Spellable top x prev first cols × (at + 139 * cols ≤ length text.old) }
    ensures { Ran put (hard_text top (gates_clauses first (row (row_over prev) 1 x 1 cols))) (out at text.old) (out result text.new) }
{
    let weight = spell(top);
    let number = spell(x / 2);
    let mut before = spell(prev);
    let mut below = spell(first);
    let mut p = low_cell(text, at, weight, x, number, before, below);
    for j in 1..cols {
        let above = following(before);
        below = following(below);
        p = full_cell(text, p, weight, x, number, above, before, below);
        before = above;
    }
    p
}
