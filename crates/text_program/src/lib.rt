// What the text program prints for its input: the text of a file of up to 65,536 bytes, or a refusal.
#![tactic(auto)]

ghost use Rattle.std.specs.Prelude.{length};
ghost use Rattle.scope.specs.Operations.{printed};
ghost use Rattle.scope.specs.Answers.{given};
ghost use Rattle.sink.specs.Run.{Ran, out, put};
ghost use Rattle.text_program.specs.Prints.{answer_for};

use scope::{Reason, Refusal};
use text::text;

// `number value` and byte 10, from the buffer's start on, as far as it goes.
fn put_refusal(buffer: &mut [u8], f: Refusal) -> usize
    ensures { Ran put (printed (given f)) (out 0 buffer.old) (out result buffer.new) }
{
    let a = digits::write_number(buffer, 0, u64::from(f.reason.number()));
    let b = digits::put(buffer, a, b' ');
    let c = digits::write_number(buffer, b, f.value);
    digits::put(buffer, c, b'\n')
}

// What the program prints for its input is stored from the buffer's start on; its length.
pub fn print_text(input: &[u8], buffer: &mut [u8]) -> usize
    ensures { Ran put (printed (answer_for input.now (length buffer.old)))
        (out 0 buffer.old) (out result buffer.new) }
{
    if 65536 < input.len() {
        return put_refusal(
            buffer,
            Refusal {
                reason: Reason::TooShort,
                value: 0,
            },
        );
    }
    match text(input, buffer) {
        Ok(n) => n as usize,
        Err(f) => put_refusal(buffer, f),
    }
}
