// One field of a constraint, at an offset: its number, or the length of its list, which is put into the store. Each function is
// called from one place, so that the compiler leaves no call and keeps the numbers in registers.
ghost use Rattle.std.specs.Prelude.{◌≡◌, ◌≤◌, ◌<◌, length};
ghost use Rattle.fields.specs.Flat.{FieldRead, NumberRead};
ghost use Rattle.fields.specs.Kind.{number_of};
ghost use Rattle.fields.specs.Table.{first_of, second_of, third_of};

use crate::kind::KindName;
use crate::list::list_at;
use crate::table::{Totals, things_of};
use number::{limited, reference};
use scope::Parsed;

// The first: a spread's events, else a reference.
pub fn first_at(s: &[u8], at: usize, kind: KindName, t: Totals, list: &mut [u16]) -> Parsed<u32>
    requires list_len { length list.old ≡ 2048 }
    requires events_bound { t.events ≤ 2048 }
    ensures { FieldRead (first_of t (number_of kind)) list.old list.new s.now at result }
{
    match kind {
        KindName::Spread => list_at(s, at, t.events, list),
        _ => {
            let n = things_of(kind, t);
            reference(s, at, 0, n)
        }
    }
}

// The second: an event in kind 11, a length in 9 and 10, the groups in 7 and 8, a bound in 4, else a group.
pub fn second_at(s: &[u8], at: usize, kind: KindName, t: Totals, list: &mut [u16]) -> Parsed<u32>
    requires list_len { length list.old ≡ 2048 }
    requires groups_bound { t.groups ≤ 2048 }
    ensures { FieldRead (second_of t (number_of kind)) list.old list.new s.now at result }
{
    match kind {
        KindName::Precedence => reference(s, at, 0, t.events),
        KindName::Distribute | KindName::Lengths => limited(s, at, 1, t.times),
        KindName::Cluster | KindName::Idle => list_at(s, at, t.groups, list),
        KindName::Split => limited(s, at, 0, 255),
        _ => reference(s, at, 0, t.groups),
    }
}

// The third of kinds 10 and 11: the longest length, a gap's lo.
pub fn third_at(s: &[u8], at: usize, kind: KindName, t: Totals) -> Parsed<u32>
    requires { 9 < number_of kind }
    ensures { NumberRead (third_of t (number_of kind)) s.now at result }
{
    match kind {
        KindName::Lengths => limited(s, at, 1, t.times),
        _ => limited(s, at, 0, 124),
    }
}
