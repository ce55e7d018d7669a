// Lines of two and three literals whose numbers are spelt, where there is room.
ghost use Rattle.std.specs.Prelude.{◌≡◌, [], ◌∷◌, ◌++◌, ◌+◌, ◌/◌, ◌≤◌, length};
ghost use Rattle.scope.specs.Text.{newline, decimal, space, literal_text, line};
ghost use Rattle.sink.specs.Run.{Ran, out, put};

use digits::spelled::{Spelled, put_spelled, put_spelled_literal};

// What ends a line.
pub fn end_line(text: &mut [u8], at: usize) -> usize
    requires { at + 2 ≤ length text.old }
    ensures ran { Ran put (48 ∷ newline) (out at text.old) (out result text.new) }
    ensures upper_bound { result ≤ at + 2 }
{
    text[at] = 48;
    text[at + 1] = 10;
    at + 2
}

// The weight of a line and its first literal, with its number.
fn first_literal(text: &mut [u8], at: usize, top: Spelled, k: u32, a: Spelled) -> usize
    requires { (a.value ≡ k / 2) × (at + 17 ≤ length text.old) }
    ensures ran { Ran put ((decimal top.value ++ space) ++ literal_text k) (out at text.old) (out result text.new) }
    ensures upper_bound { result ≤ at + 17 }
{
    let p = put_spelled(text, at, top);
    put_spelled_literal(text, p, k, a)
}

// The last literal of a line, and what ends it.
fn last_literal(text: &mut [u8], at: usize, l: u32, b: Spelled) -> usize
    requires { (b.value ≡ l / 2) × (at + 11 ≤ length text.old) }
    ensures ran { Ran put (literal_text l ++ 48 ∷ newline) (out at text.old) (out result text.new) }
    ensures upper_bound { result ≤ at + 11 }
{
    let p = put_spelled_literal(text, at, l, b);
    end_line(text, p)
}

// The line of a weight and two literals, each with its number.
pub fn pair_line(
    text: &mut [u8],
    at: usize,
    top: Spelled,
    k: u32,
    a: Spelled,
    l: u32,
    b: Spelled,
) -> usize
    requires { (a.value ≡ k / 2) × (b.value ≡ l / 2) × (at + 28 ≤ length text.old) }
    ensures ran { Ran put (line top.value (k ∷ l ∷ [])) (out at text.old) (out result text.new) }
    ensures upper_bound { result ≤ at + 28 }
{
    let p = first_literal(text, at, top, k, a);
    last_literal(text, p, l, b)
}

// The line of a weight and three literals.
pub fn triple_line(
    text: &mut [u8],
    at: usize,
    top: Spelled,
    k: u32,
    a: Spelled,
    l: u32,
    b: Spelled,
    m: u32,
    c: Spelled,
) -> usize
    requires { (a.value ≡ k / 2) × (b.value ≡ l / 2) × (c.value ≡ m / 2) × (at + 37 ≤ length text.old) }
    ensures ran { Ran put (line top.value (k ∷ l ∷ m ∷ [])) (out at text.old) (out result text.new) }
    ensures upper_bound { result ≤ at + 37 }
{
    let p = first_literal(text, at, top, k, a);
    let q = put_spelled_literal(text, p, l, b);
    last_literal(text, q, m, c)
}
