// The clauses of a node as text, where every number has at most seven digits: those of two literals with the same second one,
// whose number is turned into bytes once, and the long one. A number that follows the one before it is made from that.
#![tactic(auto)]

ghost use Rattle.std.specs.Prelude.{◌≡◌, true, [], ◌∷◌, ◌++◌, map, ◌+◌, ◌*◌, ◌/◌, ◌≤◌, ◌<◌, length};
ghost use Rattle.scope.specs.Cnf.{opp, pairs};
ghost use Rattle.scope.specs.Text.{line};
ghost use Rattle.sink.specs.Run.{Ran, out, put};
ghost use Rattle.sink.specs.Meaning.{hard_text};
ghost use Rattle.node_text.specs.Fits.{Short, Fits};

use digits::spelled::{Spelled, following, put_spelled, put_spelled_literal, spell};
use sink::lines::{end_line, pair_line};

// Whether the numbers of all literals have at most seven digits.
fn all_short(lits: &[u32]) -> bool
    ensures { result ≡ true → Short lits.now }
{
    for l in lits {
        if 20000000 <= *l {
            return false;
        }
    }
    true
}

// Whether the lines of a weight, some literals and another can be written so from a place on in an output of a length, with room
// for one more.
pub fn fits(len: usize, at: usize, top: u64, lits: &[u32], q: u32) -> bool
    ensures { result ≡ true → Fits len at top lits.now q }
{
    top < 10000000 && q < 20000000 && at <= len && lits.len() < (len - at) / 28 && all_short(lits)
}

// A number's bytes, from those of another.
fn spell_after(n: Spelled, v: u32) -> Spelled
    requires { v < 10000000 }
    ensures { result.value ≡ v }
{
    if n.value + 1 == v {
        return following(n);
    }
    spell(v)
}

// The lines of the clauses (opposite of l, q) for some literals l.
pub fn pairs_text(text: &mut [u8], at: usize, top: u32, lits: &[u32], q: u32) -> usize
    requires { Fits (length text.old) at top lits.now q }
    ensures { Ran put (hard_text top (pairs (map opp lits.now) q)) (out at text.old) (out result text.new) }
{
    let weight = spell(top);
    let second = spell(q / 2);
    let mut number = second;
    let mut p = at;
    for l in lits {
        number = spell_after(number, *l / 2);
        p = pair_line(text, p, weight, row_words::opposite(*l), number, q, second);
    }
    p
}

// The line of the clause of some literals and then q.
pub fn long_text(text: &mut [u8], at: usize, top: u32, lits: &[u32], q: u32) -> usize
    requires { Fits (length text.old) at top lits.now q }
    ensures { Ran put (line top (lits.now ++ q ∷ [])) (out at text.old) (out result text.new) }
{
    let mut number = spell(top);
    let mut p = put_spelled(text, at, number);
    for l in lits {
        number = spell_after(number, *l / 2);
        p = put_spelled_literal(text, p, *l, number);
    }
    let last = put_spelled_literal(text, p, q, spell(q / 2));
    end_line(text, last)
}
