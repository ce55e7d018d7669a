// The constraint at an offset.
ghost use Rattle.std.specs.Prelude.{◌≡◌, ◌≤◌, length};
ghost use Rattle.constraint.specs.Answers.{said_next, counts_in};
ghost use Rattle.constraint.specs.Decoded.{decoded_at};

use crate::by_kind::kind_of;
use crate::flat::flat_at;
use crate::kinds::{Constraint, Head};
use scope::Parsed;

// A constraint without the checks at its end, which an accepted file has passed. Its list stands in the store.
pub fn constraint_at(s: &[u8], at: usize, head: Head, list: &mut [u16]) -> Parsed<Constraint>
    requires list_len { length list.old ≡ 2048 }
    requires events_bound { head.events ≤ 2048 }
    requires groups_bound { head.groups ≤ 2048 }
    ensures { said_next list.new result ≡ decoded_at (counts_in head) s.now at }
{
    let (c, end) = flat_at(s, at, head, list)?;
    let constraint = Constraint {
        weight: c.weight,
        kind: kind_of(c.kind, c.fields),
    };
    Ok((constraint, end))
}
