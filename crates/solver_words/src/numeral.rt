// A variable in decimal digits, from an offset of the text up to the next space or the line's end.
ghost use Rattle.std.specs.Prelude.{◌≡◌};
ghost use Rattle.solver_words.specs.Reading.{ended_by, numeral_at, variable_at, variable_said};

// What is told at a byte below the digits: a space or the line's end ends the number, any other makes it none.
fn ended(b: u8, value: u32, at: usize) -> Option<(u32, usize)>
    ensures { result ≡ ended_by b value at }
{
    if b == b' ' {
        return Some((value, at));
    }
    if b == b'\n' {
        return Some((value, at));
    }
    None
}

// The number that the digits spell, if it is `most` at most, with the offset after them. No more digits are read than such a
// number has.
fn numeral(text: &[u8], from: usize, most: u32) -> Option<(u32, usize)>
    ensures { variable_said result ≡ numeral_at most text.now from }
{
    let mut value: u64 = 0;
    for at in from..text.len() {
        let b = text[at];
        if b < b'0' {
            return ended(b, value as u32, at);
        }
        if b'9' < b {
            return None;
        }
        value = 10 * value + u64::from(b - b'0');
        if u64::from(most) < value {
            return None;
        }
    }
    Some((value as u32, from.max(text.len())))
}

// A variable with the offset after its digits, of which the first is not 0; or none, where a byte is no digit or the number is
// too large.
pub fn variable_at(text: &[u8], at: usize, most: u32) -> Option<(u32, usize)>
    ensures { variable_said result ≡ variable_at most text.now at }
{
    if text.len() <= at {
        return None;
    }
    if text[at] <= b'0' {
        return None;
    }
    numeral(text, at, most)
}
