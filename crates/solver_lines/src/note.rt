// A literal noted: a byte is 0 while its variable is not given, then 1 for a literal with a minus or 2 for one without, and 3 once
// the variable is given again.
ghost use Rattle.std.specs.Prelude.{◌≡◌, ◌≤◌, length};
ghost use Rattle.solver_lines.specs.Noting.{noted};
ghost use Rattle.solver_lines.specs.Reading.{WordTaken};

use solver_words::{Word, word_at};

// The marks stay bytes: they stand in a lent store, since there is no heap.
const MINUS: u8 = 1;

const PLAIN: u8 = 2;

const TWICE: u8 = 3;

fn note(store: &mut [u8], v: u32, mark: u8)
    requires { (1 ≤ v) × (v ≤ length store.old) }
    ensures { store.new ≡ noted store.old v mark }
{
    let i = v as usize - 1;
    if store[i] == 0 {
        store[i] = mark;
        return;
    }
    store[i] = TWICE;
}

// The word at an offset: the offset after it and whether the closing 0 has come; none where it is a fault. None may follow the
// closing 0.
pub fn take_word(
    text: &[u8],
    at: usize,
    closed: bool,
    most: u32,
    store: &mut [u8],
) -> Option<(usize, bool)>
    requires { most ≡ length store.old }
    ensures { WordTaken most text.now at closed store.old store.new result }
{
    if closed {
        return None;
    }
    match word_at(text, at, most) {
        Word::Positive(v, next) => {
            note(store, v, PLAIN);
            Some((next, false))
        }
        Word::Negative(v, next) => {
            note(store, v, MINUS);
            Some((next, false))
        }
        Word::Closing(next) => Some((next, true)),
        Word::Malformed => None,
    }
}
