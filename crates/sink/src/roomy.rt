// A block as text, where there is room for all of it and the weight is spelt once.
ghost use Rattle.std.specs.Prelude.{◌≡◌, true, ◌+◌, ◌*◌, ◌≤◌, length};
ghost use Rattle.sink.specs.Run.{Ran, out, put};
ghost use Rattle.sink.specs.Block.{opened, by_word, by_words};
ghost use Rattle.sink.specs.Parts.{text_parts};

use crate::LAST;
use crate::lines::end_line;
use digits::fast_literal;
use digits::spelled::{Spelled, put_spelled};

// The start of a hard line, where a word is the first of its clause.
fn roomy_start(text: &mut [u8], at: usize, top: Spelled, first: bool) -> usize
    requires { at + 8 ≤ length text.old }
    ensures text_after { out result text.new ≡ opened (text_parts top.value) first (out at text.old) }
    ensures upper_bound { result ≤ at + 8 }
{
    if first {
        return put_spelled(text, at, top);
    }
    at
}

// A word of a block: at most a weight, a literal and what ends a line.
fn roomy_word(text: &mut [u8], at: usize, top: Spelled, first: bool, w: u32) -> usize
    requires { at + 22 ≤ length text.old }
    ensures text_after { out result text.new ≡ by_word (text_parts top.value) first w (out at text.old) }
    ensures upper_bound { result ≤ at + 22 }
{
    let a = roomy_start(text, at, top, first);
    let b = fast_literal(text, a, w % LAST);
    if w < LAST {
        return b;
    }
    end_line(text, b)
}

// The lines of a block.
pub fn roomy_block(text: &mut [u8], at: usize, top: Spelled, block: &[u32]) -> usize
    requires { at + 22 * length block.now ≤ length text.old }
    ensures { out result text.new ≡ by_words (text_parts top.value) true block.now (out at text.old) }
{
    let mut p = at;
    let mut first = true;
    for w in block {
        p = roomy_word(text, p, top, first, *w);
        first = LAST <= *w;
    }
    p
}
