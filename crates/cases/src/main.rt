// Cases of the operations. Each line of the input is a name, a letter for the operation and fields of hexadecimal digits; for each a
// line with the name and the answer is printed. The answers in stdout come from a reading of document 01 that knows nothing of this
// code.
#![tactic(auto)]

mod checked;
mod line_fields;
mod output;
mod scored;

ghost use Rattle.std.specs.Prelude.{◌≡◌, ◌≤◌, length};

use input::read_full;
use line_fields::{colon, past};
use output::Output;
use scope::Refusal;
use std::fmt::Display;
use std::io;

// 65,536 zeros.
fn large_buffer() -> [u8; 65536]
    ensures { 65536 ≡ length result }
{
    [0; 65536]
}

// Two numbers after a word.
fn put_pair<P: Print, D: Display + Drop>(out: &mut Output<P>, word: &[u8], a: D, b: D) {
    out.put(word);
    out.print(a);
    out.put(b" ");
    out.print(b);
}

fn put_refusal<P: Print>(out: &mut Output<P>, f: Refusal) {
    out.put(b"refused ");
    out.print(f);
}

// The operation that a letter stands for, on the fields from a place on; where the next line begins.
fn answer<P: Print>(out: &mut Output<P>, letter: u8, text: &mut [u8], at: usize) -> usize
    requires { at ≤ length text.old }
    ensures { result ≤ length text.new }
{
    match letter {
        b'r' => scored::read_line(out, text, at),
        b's' => scored::score_line(out, text, at),
        b'e' => scored::sheet_line(out, text, at),
        b't' => scored::text_line(out, text, at),
        b'd' => scored::decode_line(out, text, at),
        b'c' => checked::check_line(out, text, at),
        b'h' => checked::hard_line(out, text, at),
        _ => {
            out.put(b"no such operation\n");
            text.len()
        }
    }
}

// The line at a place; where the next one begins.
fn line<P: Print>(out: &mut Output<P>, text: &mut [u8], at: usize) -> usize
    requires { at ≤ length text.old }
    ensures { result ≤ length text.new }
{
    let end = colon(text, at);
    out.put(&text[at..end]);
    out.put(b": ");
    let place = past(end, 2, text.len());
    if place == text.len() {
        return place;
    }
    let letter = text[place];
    let start = past(place, 2, text.len());
    answer(out, letter, text, start)
}

// The answer to each line, in turn.
fn lines<P: Print>(out: &mut Output<P>, text: &mut [u8]) {
    let mut at: usize = 0;
    while at < text.len() {
        let next = line(out, text, at);
        if next <= at {
            return;
        }
        at = next;
    }
}

fn main(rt: HostRuntime) -> io::Result<()> {
    let mut text = large_buffer();
    let n = read_full(&mut rt.reader(), &mut text)?;
    let mut out = Output::new(&rt);
    lines(&mut out, &mut text[..n]);
    out.end()
}
