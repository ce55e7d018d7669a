// The constraint at an offset as plain numbers.
ghost use Rattle.std.specs.Prelude.{◌≡◌, ◌≤◌, length};
ghost use Rattle.constraint.specs.Answers.{said_flat_next, counts_in};
ghost use Rattle.constraint.specs.Decoded.{decoded_at};

use crate::kinds::Head;
use fields::{Flat, KindName, Totals, fields_at, kind_named};
use number::limited;
use scope::Parsed;

// The kind, the weight, and the fields in the order in which they were read.
#[derive(Clone, Copy)]
pub struct FlatConstraint {
    pub kind: KindName,
    pub weight: u32,
    pub fields: Flat,
}

// A constraint without the checks at its end. Its list stands in the store.
pub fn flat_at(s: &[u8], at: usize, head: Head, list: &mut [u16]) -> Parsed<FlatConstraint>
    requires list_len { length list.old ≡ 2048 }
    requires events_bound { head.events ≤ 2048 }
    requires groups_bound { head.groups ≤ 2048 }
    ensures { said_flat_next list.new result ≡ decoded_at (counts_in head) s.now at }
{
    let (number, more) = limited(s, at, 1, 11)?;
    let (weight, start) = limited(s, more, 0, 1000)?;
    let kind = kind_named(number);
    let t = Totals {
        times: head.times,
        events: head.events,
        resources: head.resources,
        groups: head.groups,
    };
    let (fields, end) = fields_at(s, start, kind, t, list)?;
    let c = FlatConstraint {
        kind,
        weight,
        fields,
    };
    Ok((c, end))
}
