// All lines of a solver's text, in one pass.
ghost use Rattle.std.specs.Prelude.{◌≡◌, false, ◌≤◌, length};
ghost use Rattle.solver_lines.specs.Noting.{noting, text_tokens};
ghost use Rattle.solver_lines.specs.Reading.{after_end, line_said};

use crate::line::{Line, read_line};

// Where the next line begins.
fn after_end(text: &[u8], end: usize) -> usize
    ensures { result ≡ after_end text.now end }
{
    if end < text.len() {
        return end + 1;
    }
    end
}

// The literals of all v lines, noted in the store; or the offset of the first fault.
pub fn read_lines(text: &[u8], store: &mut [u8]) -> Line
    requires { length store.old ≤ 4294967295 }
    ensures { line_said result store.new ≡ noting (length store.old) store.old false (text_tokens text.now) }
{
    let most = store.len() as u32;
    let mut at: usize = 0;
    let mut closed = false;
    // a line moves the position, which is no counter
    while at < text.len() {
        let (end, closes) = read_line(text, at, closed, most, store)?;
        at = after_end(text, end);
        closed = closes;
    }
    Ok((at, closed))
}
