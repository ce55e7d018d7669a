// A list of references, read into a store: one turn for each.
ghost use Rattle.std.specs.Prelude.{◌≡◌, ◌≤◌, ◌<◌, length};
ghost use Rattle.scope.specs.Number.{listed};
ghost use Rattle.fields.specs.Answers.{said_list};

use number::{limited, reference};
use scope::Parsed;

// A list of references to n things; the answer has its length.
pub fn list_at(s: &[u8], at: usize, n: u32, list: &mut [u16]) -> Parsed<u32>
    requires n_in_bounds { n ≤ length list.old }
    requires n_bound { n < 65536 }
    ensures { said_list list.new result ≡ listed n s.now at }
{
    let (count, start) = limited(s, at, 0, n)?;
    let mut next = start;
    let mut before: u32 = 0;
    for i in 0..count as usize {
        let (v, after) = reference(s, next, before, n)?;
        list[i] = v as u16;
        before = v;
        next = after;
    }
    Ok((count, next))
}
