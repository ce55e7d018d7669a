// The checks at a constraint's end.
ghost use Rattle.std.specs.Prelude.{◌≡◌};
ghost use Rattle.constraint_end.specs.End.{ends_at};
ghost use Rattle.constraint_end.specs.Ends.{ends, said_end};
ghost use Rattle.constraint_end.specs.Ready.{Ready, checked_by, by_counts};

use crate::by_kind::list_length;
use crate::end::{End, end_of};
use constraint::{Head, flat_at};
use scope::{Reason, Refusal};

// A constraint whose kind stands at an offset and whose counted list has n members: where it ends.
fn ended(at: usize, e: End, n: u32, end: usize) -> Result<usize, Refusal>
    ensures { said_end result ≡ ends_at at e n end }
{
    let value = at as u64;
    if 255 < n {
        return Err(Refusal {
            reason: Reason::ListTooLong,
            value,
        });
    }
    if let Some(reason) = e.fault {
        return Err(Refusal { reason, value });
    }
    if e.hi < e.lo || n < e.lo {
        return Err(Refusal {
            reason: Reason::BadBounds,
            value,
        });
    }
    Ok(end)
}

// Where the constraint at an offset ends, checked.
pub fn checked_at(
    s: &[u8],
    at: usize,
    head: Head,
    loads: &[u32],
    groups: &[u8],
    list: &mut [u16],
) -> Result<usize, Refusal>
    requires { Ready loads.now groups.now list.old head }
    ensures { said_end result ≡ ends (checked_by (by_counts loads.now) groups.now head s.now at) }
{
    let (c, end) = flat_at(s, at, head, list)?;
    let n = list_length(c.kind, c.fields, head, loads, groups, list);
    let e = end_of(c.kind, c.fields);
    ended(at, e, n, end)
}
