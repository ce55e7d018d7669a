// What a word is, by its first byte.
ghost use Rattle.std.specs.Prelude.{◌≡◌};
ghost use Rattle.solver_words.specs.Reading.{WordRead, closing_at};

use crate::numeral::variable_at;

// A variable without a minus or with one, or the closing 0, each with the offset after the word; or neither.
#[derive(Clone, Copy)]
pub enum Word {
    Positive(u32, usize),
    Negative(u32, usize),
    Closing(usize),
    Malformed,
}

// The closing 0, where the word ends after it.
fn closing(text: &[u8], next: usize) -> Word
    ensures { result ≡ closing_at text.now next }
{
    if text.len() <= next {
        return Word::Closing(next);
    }
    let b = text[next];
    if b == b' ' {
        return Word::Closing(next);
    }
    if b == b'\n' {
        return Word::Closing(next);
    }
    Word::Malformed
}

// The word that begins at an offset, over variables up to `most`.
pub fn word_at(text: &[u8], at: usize, most: u32) -> Word
    ensures { WordRead most text.now at result }
{
    if text.len() <= at {
        return Word::Malformed;
    }
    let b = text[at];
    if b == b'-' {
        return match variable_at(text, at + 1, most) {
            Some((v, next)) => Word::Negative(v, next),
            None => Word::Malformed,
        };
    }
    if b == b'0' {
        return closing(text, at + 1);
    }
    match variable_at(text, at, most) {
        Some((v, next)) => Word::Positive(v, next),
        None => Word::Malformed,
    }
}
