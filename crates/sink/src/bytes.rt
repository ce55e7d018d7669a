// A block as text, and the length of its text.
ghost use Rattle.std.specs.Prelude.{◌≡◌, true, ◌∷◌, ◌+◌, ◌*◌, ◌≤◌, ◌<◌};
ghost use Rattle.scope.specs.Text.{newline};
ghost use Rattle.sink.specs.Run.{Ran, out, put};
ghost use Rattle.sink.specs.Block.{opened, by_word, by_words};
ghost use Rattle.sink.specs.Parts.{text_parts, size_parts};

use crate::LAST;
use crate::roomy::roomy_block;
use digits::spelled::spell;

// The start of a hard line, where a word is the first of its clause: the weight and a space.
fn open_line(text: &mut [u8], at: usize, top: u64, first: bool) -> usize
    ensures { out result text.new ≡ opened (text_parts top) first (out at text.old) }
{
    if first {
        let a = digits::write_number(text, at, top);
        return digits::put(text, a, 32);
    }
    at
}

// What ends a line.
fn close_line(text: &mut [u8], at: usize) -> usize
    ensures { Ran put (48 ∷ newline) (out at text.old) (out result text.new) }
{
    let a = digits::put(text, at, 48);
    digits::put(text, a, 10)
}

// A word of a block in the text: what starts its line, its literal, and what ends its line.
fn word_text(text: &mut [u8], at: usize, top: u64, first: bool, w: u32) -> usize
    ensures { out result text.new ≡ by_word (text_parts top) first w (out at text.old) }
{
    let a = open_line(text, at, top, first);
    let b = digits::write_literal(text, a, w % LAST);
    if w < LAST {
        return b;
    }
    close_line(text, b)
}

// The hard lines of a block, with a test of room for each number; roomy_block, with one test for all, is quicker and does not always do.
fn tested_block(text: &mut [u8], at: usize, top: u64, block: &[u32]) -> usize
    ensures { out result text.new ≡ by_words (text_parts top) true block.now (out at text.old) }
{
    let mut p = at;
    let mut first = true;
    for w in block {
        p = word_text(text, p, top, first, *w);
        first = LAST <= *w;
    }
    p
}

// Whether one test of room is enough for n words: the weight has at most seven digits, and from a place on there is room for all.
fn roomy(at: usize, len: usize, top: u64, n: usize) -> bool
    ensures { result ≡ true → (top < 10000000) × (at + 22 * n ≤ len) }
{
    top < 10000000 && at <= len && n <= (len - at) / 22
}

// The hard lines of a block.
pub fn text_block(text: &mut [u8], at: usize, top: u64, block: &[u32]) -> usize
    ensures { out result text.new ≡ by_words (text_parts top) true block.now (out at text.old) }
{
    if roomy(at, text.len(), top, block.len()) {
        return roomy_block(text, at, spell(top as u32), block);
    }
    tested_block(text, at, top, block)
}

// A word's length in the text, for lines that have so many bytes beside their literals.
fn word_size(at: usize, beside: usize, w: u32) -> usize
    ensures { result ≡ by_word (size_parts beside) true w at }
{
    if w < LAST {
        return digits::advance(at, digits::literal_size(w));
    }
    let a = digits::advance(at, digits::literal_size(w - LAST));
    digits::advance(a, beside)
}

// The length of a block's hard lines.
pub fn size_block(at: usize, beside: usize, block: &[u32]) -> usize
    ensures { result ≡ by_words (size_parts beside) true block.now at }
{
    let mut p = at;
    for w in block {
        p = word_size(p, beside, *w);
    }
    p
}
