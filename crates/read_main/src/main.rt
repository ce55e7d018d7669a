// Reads an instance file of up to 262,144 bytes from standard input and prints what reading it answers; for a longer one `9 0`.
#![tactic(auto)]

use input::read_full;
use instance::read_instance;
use scope::{InstanceSize, Reason, Refusal};
use std::io;

// `accepted T E R groups constraints`, or a refusal
fn print_answer(rt: &impl Print, a: Result<InstanceSize, Refusal>) -> io::Result<()> {
    match a {
        Ok(z) => println!(rt;
            "accepted {} {} {} {} {}",
            z.times, z.events, z.resources, z.groups, z.constraints
        ),
        Err(f) => println!(rt; "{f}"),
    }
}

fn main(rt: HostRuntime) -> io::Result<()> {
    // one byte more than a file may have
    let mut file = [0; 262145];
    let n = read_full(&mut rt.reader(), &mut file)?;
    let answer = if 262144 < n {
        Err(Refusal {
            reason: Reason::TooShort,
            value: 0,
        })
    } else {
        read_instance(&file[..n])
    };
    print_answer(&rt, answer)
}
