// The fields of a line: bytes, each given by two hexadecimal digits.
ghost use Rattle.std.specs.Prelude.{◌+◌, ◌*◌, ◌<◌, ◌≤◌, IfSome, length};

// Where a field's bytes end, which begin where the field does, and where the next field begins.
#[derive(Clone, Copy)]
pub struct Place {
    pub end: usize,
    pub next: usize,
}

// A digit's value.
fn digit(c: u8) -> Option<u8>
    ensures { IfSome result (λ d. d < 16) }
{
    match c {
        b'0'..=b'9' => Some(c - b'0'),
        b'a'..=b'f' => Some(c - b'a' + 10),
        _ => None,
    }
}

// So many places on, but not past the end.
pub fn past(at: usize, n: usize, len: usize) -> usize
    requires { at ≤ len }
    ensures { result ≤ len }
{
    at + n.min(len - at)
}

// The first colon from a place on, or the end.
pub fn colon(text: &[u8], at: usize) -> usize
    requires { at ≤ length text.now }
    ensures { (at ≤ result) × (result ≤ length text.now) }
{
    for i in at..text.len() {
        if text[i] == b':' {
            return i;
        }
    }
    text.len()
}

// How many bytes the digits at a place give; they are stored from there on.
fn bytes_at(text: &mut [u8], at: usize) -> usize
    requires { at ≤ length text.old }
    ensures { at + 2 * result ≤ length text.new }
{
    let most = (text.len() - at) / 2;
    for n in 0..most {
        let high = digit(text[at + 2 * n]);
        let low = digit(text[at + 2 * n + 1]);
        let (Some(high), Some(low)) = (high, low) else {
            return n;
        };
        text[at + n] = 16 * high + low;
    }
    most
}

// The field at a place: its bytes stand where their digits did, and one byte stands before the next field.
pub fn field(text: &mut [u8], at: usize) -> Place
    requires { at ≤ length text.old }
    ensures { (at ≤ result.end) × (result.end ≤ length text.new) × (result.next ≤ length text.new) }
{
    let n = bytes_at(text, at);
    Place {
        end: at + n,
        next: past(at + 2 * n, 1, text.len()),
    }
}

// The number that bytes give, the highest first.
fn number(bytes: &[u8]) -> u64 {
    let mut value: u64 = 0;
    for b in bytes {
        if 72057594037927935 < value {
            return value;
        }
        value = 256 * value + u64::from(*b);
    }
    value
}

// The field at a place as a number, and where the next field begins.
pub fn number_field(text: &mut [u8], at: usize) -> (u64, usize)
    requires { at ≤ length text.old }
    ensures { result.1 ≤ length text.new }
{
    let f = field(text, at);
    (number(&text[at..f.end]), f.next)
}
