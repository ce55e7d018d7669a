// A line of a solver's text, by its first byte.
ghost use Rattle.std.specs.Prelude.{◌≡◌, Bool, ◌<◌, length};
ghost use Rattle.scope.specs.SolverText.{passed_over};
ghost use Rattle.solver_lines.specs.Reading.{end_of, LineRead, ValuesRead};

use crate::words::read_words;

// The offset of the line's end and whether the closing 0 has come; or the offset of what is no line or no word.
pub type Line = Result<(usize, bool), usize>;

// The offset of the next byte 10, or of the text's end.
fn line_end(text: &[u8], from: usize) -> usize
    ensures { result ≡ end_of text.now from }
{
    for at in from..text.len() {
        if text[at] == b'\n' {
            return at;
        }
    }
    from.max(text.len())
}

// A comment, the objective or the status.
fn passed_over(b: u8) -> bool
    ensures { result ≡ passed_over b }
{
    matches!(b, b'c' | b'o' | b's')
}

// What follows a v: nothing, or a space and words.
fn read_values(text: &[u8], at: usize, closed: bool, most: u32, store: &mut [u8]) -> Line
    requires { most ≡ length store.old }
    ensures { ValuesRead most text.now at closed store.old store.new result }
{
    if text.len() <= at {
        return Ok((at, closed));
    }
    if text[at] == b'\n' {
        return Ok((at, closed));
    }
    if text[at] != b' ' {
        return Err(at);
    }
    read_words(text, at, closed, most, store)
}

// The line that begins at an offset.
pub fn read_line(text: &[u8], at: usize, closed: bool, most: u32, store: &mut [u8]) -> Line
    requires { (at < length text.now) × (most ≡ length store.old) }
    ensures { LineRead most text.now at closed store.old store.new result }
{
    let b = text[at];
    if passed_over(b) {
        let end = line_end(text, at + 1);
        return Ok((end, closed));
    }
    if b != b'v' {
        return Err(at);
    }
    read_values(text, at + 1, closed, most, store)
}
