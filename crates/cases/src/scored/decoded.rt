// Decoding: the cost of a model, and what its part scores.
ghost use Rattle.std.specs.Prelude.{◌≤◌, length};

use crate::line_fields::field;
use crate::output::Output;
use crate::scored::put_score;
use crate::{put_pair, put_refusal};

// The cost of a decoded model and what its part scores, or the refusal.
fn put_decoded<P: Print>(out: &mut Output<P>, file: &[u8], model: &[u8]) {
    let d = decoding::decode(file, model);
    match d.answer {
        Ok(cost) => {
            put_pair(out, b"decoded ", d.part.len() as u64, cost.0);
            out.put(b", ");
            put_score(out, file, d.part);
        }
        Err(f) => {
            put_refusal(out, f);
            out.put(b"\n");
        }
    }
}

pub fn decode_line<P: Print>(out: &mut Output<P>, text: &mut [u8], at: usize) -> usize
    requires { at ≤ length text.old }
    ensures { result ≤ length text.new }
{
    let file = field(text, at);
    let model = field(text, file.next);
    put_decoded(out, &text[at..file.end], &text[file.next..model.end]);
    model.next
}
