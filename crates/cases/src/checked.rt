// Checking a proof, with stores that are not zero before it.
ghost use Rattle.std.specs.Prelude.{◌≤◌, length};

use crate::line_fields::{field, number_field};
use crate::output::Output;
use crate::put_refusal;
use claims::claim::Claim;
use directory::Row;
use scope::Refusal;

fn put_answer<P: Print>(out: &mut Output<P>, answer: Result<u64, Refusal>) {
    match answer {
        Ok(steps) => {
            out.put(b"no timetable ");
            out.print(steps);
        }
        Err(f) => put_refusal(out, f),
    }
}

// Whether the first n are 0, and no other.
fn zero_first<T: PartialEq + Default + Drop>(s: &[T], n: usize) -> bool {
    for i in 0..s.len() {
        if (i < n) != (s[i] == T::default()) {
            return false;
        }
    }
    true
}

fn put_zero<P: Print>(out: &mut Output<P>, zero: bool) {
    if zero {
        out.put(b", stores zero\n");
    } else {
        out.put(b", stores not zero\n");
    }
}

// The answer for a claim and a proof, where so many words, rows and bytes are lent: the first of some that are not zero.
fn put_claim<P: Print>(
    out: &mut Output<P>,
    file: &[u8],
    claim: Claim,
    proof: &[u8],
    words: usize,
    rows: usize,
    bytes: usize,
)
    requires { (words ≤ 2048) × (rows ≤ 1024) × (bytes ≤ 256) }
{
    let row = Row {
        id: 255,
        first: 255,
        len: 255,
        live: 255,
    };
    let mut w = [4294967295; 2048];
    let mut d = [row; 1024];
    let mut b = [255; 256];
    let answer = checker::check(
        file,
        claim,
        proof,
        &mut w[..words],
        &mut d[..rows],
        &mut b[..bytes],
    );
    put_answer(out, answer);
    put_zero(out, zero_first(&w, words) && zero_first(&b, bytes));
}

// A claim about a file, with the fields that follow: the proof, the words, rows and bytes that are lent, up to the most there are.
fn claim_line<P: Print>(
    out: &mut Output<P>,
    text: &mut [u8],
    from: usize,
    to: usize,
    claim: Claim,
    at: usize,
) -> usize
    requires { (from ≤ to) × (to ≤ length text.old) × (at ≤ length text.old) }
    ensures { result ≤ length text.new }
{
    let f = field(text, at);
    let (words, after_words) = number_field(text, f.next);
    let (rows, after_rows) = number_field(text, after_words);
    let (bytes, next) = number_field(text, after_rows);
    put_claim(
        out,
        &text[from..to],
        claim,
        &text[at..f.end],
        words.min(2048) as usize,
        rows.min(1024) as usize,
        bytes.min(256) as usize,
    );
    next
}

// The file and the bound.
pub fn check_line<P: Print>(out: &mut Output<P>, text: &mut [u8], at: usize) -> usize
    requires { at ≤ length text.old }
    ensures { result ≤ length text.new }
{
    let f = field(text, at);
    let (bound, next) = number_field(text, f.next);
    claim_line(out, text, at, f.end, Claim::Bound(bound), next)
}

// The file, at any cost.
pub fn hard_line<P: Print>(out: &mut Output<P>, text: &mut [u8], at: usize) -> usize
    requires { at ≤ length text.old }
    ensures { result ≤ length text.new }
{
    let f = field(text, at);
    claim_line(out, text, at, f.end, Claim::AnyCost, f.next)
}
