// The text program on a file of 65,537 bytes.
// wcnf has the same main: a program has one standard input.
#![tactic(auto)]

use input::read_full;
use std::io;
use text_program::print_text;

// What stands on standard input, as text or as a refusal.
fn main(rt: HostRuntime) -> io::Result<()> {
    // one byte more than a file may have: a file that fills it is longer, whatever comes after
    let mut file = [0; 65537];
    let n = read_full(&mut rt.reader(), &mut file)?;
    // of fixed size: there is no heap
    let mut out = [0; 65536];
    let m = print_text(&file[..n], &mut out);
    rt.write_all(&out[..m])
}
