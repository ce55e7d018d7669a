// Reading, the text, scoring and same sheet; decoding, which scores what it decodes.
mod decoded;

ghost use Rattle.std.specs.Prelude.{◌≤◌, length};

use crate::line_fields::field;
use crate::output::Output;
use crate::{large_buffer, put_pair, put_refusal};
pub use decoded::decode_line;
use instance::read_instance;
use scope::InstanceSize;
use text_program::print_text;

// The sizes of an accepted file: times, events, resources, groups, constraints.
fn put_sizes<P: Print>(out: &mut Output<P>, z: InstanceSize) {
    put_pair(out, b"accepted ", z.times, z.events);
    put_pair(out, b" ", z.resources, z.groups);
    out.put(b" ");
    out.print(z.constraints);
}

fn put_read<P: Print>(out: &mut Output<P>, file: &[u8]) {
    match read_instance(file) {
        Ok(z) => put_sizes(out, z),
        Err(f) => put_refusal(out, f),
    }
    out.put(b"\n");
}

pub fn read_line<P: Print>(out: &mut Output<P>, text: &mut [u8], at: usize) -> usize
    requires { at ≤ length text.old }
    ensures { result ≤ length text.new }
{
    let f = field(text, at);
    put_read(out, &text[at..f.end]);
    f.next
}

// What the text program prints, or how many bytes those are.
fn put_text<P: Print>(out: &mut Output<P>, file: &[u8]) {
    let mut text = large_buffer();
    let n = print_text(file, &mut text);
    if n < 40 {
        out.put(&text[..n]);
        return;
    }
    out.print(n);
    out.put(b" bytes\n");
}

pub fn text_line<P: Print>(out: &mut Output<P>, text: &mut [u8], at: usize) -> usize
    requires { at ≤ length text.old }
    ensures { result ≤ length text.new }
{
    let f = field(text, at);
    put_text(out, &text[at..f.end]);
    f.next
}

fn put_score<P: Print>(out: &mut Output<P>, file: &[u8], table: &[u8]) {
    match sheet::score(file, table) {
        Ok((infeasibility, objective)) => put_pair(out, b"scored ", infeasibility.0, objective.0),
        Err(f) => put_refusal(out, f),
    }
    out.put(b"\n");
}

pub fn score_line<P: Print>(out: &mut Output<P>, text: &mut [u8], at: usize) -> usize
    requires { at ≤ length text.old }
    ensures { result ≤ length text.new }
{
    let file = field(text, at);
    let table = field(text, file.next);
    put_score(out, &text[at..file.end], &text[file.next..table.end]);
    table.next
}

fn put_sheet<P: Print>(out: &mut Output<P>, file: &[u8], first: &[u8], second: &[u8]) {
    match sheet::same_sheet(file, first, second) {
        Ok(true) => out.put(b"same"),
        Ok(false) => out.put(b"different"),
        Err(f) => put_refusal(out, f),
    }
    out.put(b"\n");
}

pub fn sheet_line<P: Print>(out: &mut Output<P>, text: &mut [u8], at: usize) -> usize
    requires { at ≤ length text.old }
    ensures { result ≤ length text.new }
{
    let file = field(text, at);
    let first = field(text, file.next);
    let second = field(text, first.next);
    put_sheet(
        out,
        &text[at..file.end],
        &text[file.next..first.end],
        &text[first.next..second.end],
    );
    second.next
}
