// The walk over all constraints of a file.
ghost use Rattle.std.specs.Prelude.{◌≡◌};
ghost use Rattle.constraint_end.specs.Ends.{ends, said_end};
ghost use Rattle.constraint_end.specs.Ready.{Ready, Lent, checked_all, checked_whole, by_counts, by_rows};

use constraint::Head;
use constraint_end::checked_at;
use scope::{Reason, Refusal};
use tables::count_members;

// Where the constraints end.
fn constraints_end(
    s: &[u8],
    head: Head,
    loads: &[u32],
    groups: &[u8],
    list: &mut [u16],
) -> Result<usize, Refusal>
    requires { Ready loads.now groups.now list.old head }
    ensures { said_end result ≡ ends (checked_all (by_counts loads.now) groups.now head s.now) }
{
    let mut next = head.start;
    for _i in 0..head.constraints {
        next = checked_at(s, next, head, loads, groups, list)?;
    }
    Ok(next)
}

// All constraints, checked, up to the file's end.
pub fn constraints_whole(
    s: &[u8],
    head: Head,
    resources: &[u8],
    groups: &[u8],
    list: &mut [u16],
) -> Result<usize, Refusal>
    requires { Lent resources.now groups.now list.old head }
    ensures { said_end result ≡ ends (checked_whole (by_rows resources.now head.events) groups.now head s.now) }
{
    // of fixed size: there is no heap
    let mut loads = [0u32; 256];
    count_members(resources, head.events, &mut loads);
    let end = constraints_end(s, head, &loads, groups, list)?;
    if end < s.len() {
        return Err(Refusal {
            reason: Reason::BytesLeft,
            value: end as u64,
        });
    }
    Ok(end)
}
