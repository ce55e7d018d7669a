// The words of a v line.
ghost use Rattle.std.specs.Prelude.{◌≡◌, ◌<◌, length, get_or};
ghost use Rattle.solver_lines.specs.Reading.{Stepped, WordsRead};

use crate::line::Line;
use crate::note::take_word;

// A space or a word is passed: the next offset and whether the closing 0 has come; none where it is a fault.
fn step(text: &[u8], at: usize, closed: bool, most: u32, store: &mut [u8]) -> Option<(usize, bool)>
    requires { (at < length text.now) × (get_or text.now at 0 ≡ 10 → ⊥) × (most ≡ length store.old) }
    ensures { Stepped most text.now at closed store.old store.new result }
{
    if text[at] == b' ' {
        return Some((at + 1, closed));
    }
    take_word(text, at, closed, most, store)
}

// The words of a line from an offset on, where one may begin.
pub fn read_words(
    text: &[u8],
    from: usize,
    closed_before: bool,
    most: u32,
    store: &mut [u8],
) -> Line
    requires { most ≡ length store.old }
    ensures { WordsRead most text.now from closed_before store.old store.new result }
{
    let mut at = from;
    let mut closed = closed_before;
    // a word moves the position, which is no counter
    while at < text.len() {
        if text[at] == b'\n' {
            return Ok((at, closed));
        }
        let Some((next, closes)) = step(text, at, closed, most, store) else {
            return Err(at);
        };
        at = next;
        closed = closes;
    }
    Ok((at, closed))
}
