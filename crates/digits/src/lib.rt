// Decimal numbers and literals in a lent output, in two forms: with a test for each byte, and without, where there is room.
#![tactic(auto)]

ghost use Rattle.std.specs.Prelude.{◌≡◌, true, [], ◌∷◌, ◌+◌, ◌-◌, ◌%◌, ◌≤◌, ◌<◌, length};
ghost use Rattle.std.proofs.lemmas.List.Edits.{sets};
ghost use Rattle.scope.specs.Text.{digits, decimal, literal_text};
ghost use Rattle.digits.specs.Run.{Ran};
ghost use Rattle.digits.specs.Store.{out, put, further};
ghost use Rattle.digits.specs.Decimal.{last_digits};

pub mod spelled;

use spelled::{put_spelled_literal, spell};

// A position moved on. It stops at 2^63 - 1, and no slice is longer, so counting needs no bound.
pub fn advance(at: usize, n: usize) -> usize
    ensures { result ≡ further at n }
{
    at.saturating_add(n).min(9223372036854775807)
}

// Whether n bytes or words from a place on are within an output's length.
pub fn room(at: usize, n: usize, len: usize) -> bool
    ensures { result ≡ true → at + n ≤ len }
{
    at <= len && n <= len - at
}

// One byte or word, where there is room; the position counts it either way.
pub fn put<T: Copy>(output: &mut [T], at: usize, x: T) -> usize
    ensures { Ran put (x ∷ []) (out at output.old) (out result output.new) }
{
    if at < output.len() {
        output[at] = x;
    }
    advance(at, 1)
}

// Some bytes or words, with a test for each.
pub fn put_all<T: Copy>(output: &mut [T], at: usize, xs: &[T]) -> usize
    ensures { Ran put xs.now (out at output.old) (out result output.new) }
{
    let mut p = at;
    for x in xs {
        p = put(output, p, *x);
    }
    p
}

fn digit(n: u64) -> u8
    ensures { result ≡ 48 + n % 10 }
{
    48 + (n % 10) as u8
}

// At most k + 1 decimal digits of n.
fn put_number(text: &mut [u8], at: usize, n: u64, k: usize) -> usize
    ensures { Ran put (digits k n) (out at text.old) (out result text.new) }
{
    if k == 0 {
        return put(text, at, digit(n));
    }
    if n < 10 {
        return put(text, at, digit(n));
    }
    let mid = put_number(text, at, n / 10, k - 1);
    put(text, mid, digit(n))
}

// A literal with its sign, and a space.
fn put_literal(text: &mut [u8], at: usize, l: u32) -> usize
    ensures { Ran put (literal_text l) (out at text.old) (out result text.new) }
{
    if l % 2 == 1 {
        let a = put(text, at, 45);
        let b = put_number(text, a, (l / 2) as u64, 19);
        return put(text, b, 32);
    }
    let c = put_number(text, at, (l / 2) as u64, 19);
    put(text, c, 32)
}

// How many digits a number has.
fn count_digits(v: u32) -> usize
    ensures { result ≡ length (decimal v) }
{
    if v < 10 {
        return 1;
    }
    v.ilog10() as usize + 1
}

// The last digits of v from at up to end, written backwards, two in each turn.
fn fill_digits(text: &mut [u8], at: usize, end: usize, v: u32)
    requires { (at ≤ end) × (end ≤ length text.old) }
    ensures { text.new ≡ sets text.old at (last_digits (end - at) v) }
{
    let mut i = end;
    let mut x = v;
    while at + 1 < i {
        let r = x % 100;
        x /= 100;
        i -= 2;
        text[i + 1] = 48 + (r % 10) as u8;
        text[i] = 48 + (r / 10) as u8;
    }
    if at < i {
        text[at] = 48 + (x % 10) as u8;
    }
}

// A number, where there is room for ten digits.
fn fast_number(text: &mut [u8], at: usize, v: u32) -> usize
    requires { at + 10 ≤ length text.old }
    ensures ran { Ran put (decimal v) (out at text.old) (out result text.new) }
    ensures upper_bound { result ≤ at + 10 }
{
    let end = at + count_digits(v);
    fill_digits(text, at, end, v);
    end
}

// A literal with its sign, and a space, where there is room. A sign is written in any case, and a digit over it where it is not wanted.
pub fn fast_literal(text: &mut [u8], at: usize, l: u32) -> usize
    requires { at + 12 ≤ length text.old }
    ensures ran { Ran put (literal_text l) (out at text.old) (out result text.new) }
    ensures upper_bound { result ≤ at + 12 }
{
    let v = l / 2;
    if v < 10000000 {
        return put_spelled_literal(text, at, l, spell(v));
    }
    text[at] = 45;
    let a = at + (l % 2) as usize;
    let b = fast_number(text, a, v);
    text[b] = 32;
    b + 1
}

// A number's digits, written from a place on.
pub fn write_number(text: &mut [u8], at: usize, n: u64) -> usize
    ensures { Ran put (decimal n) (out at text.old) (out result text.new) }
{
    if n < 4294967296 && room(at, 10, text.len()) {
        return fast_number(text, at, n as u32);
    }
    put_number(text, at, n, 19)
}

// A literal with its sign, and a space.
pub fn write_literal(text: &mut [u8], at: usize, l: u32) -> usize
    ensures { Ran put (literal_text l) (out at text.old) (out result text.new) }
{
    if room(at, 12, text.len()) {
        return fast_literal(text, at, l);
    }
    put_literal(text, at, l)
}

// How many bytes a number takes; one above 32 bits is written to nowhere.
pub fn number_size(n: u64) -> usize
    ensures { (result ≡ length (decimal n)) × (result ≤ 20) }
{
    if n < 4294967296 {
        return count_digits(n as u32);
    }
    let mut none = [0u8; 1];
    put_number(&mut none, 0, n, 19)
}

// How many bytes a literal takes.
pub fn literal_size(l: u32) -> usize
    ensures { result ≡ length (literal_text l) }
{
    count_digits(l / 2) + 1 + (l % 2) as usize
}
