// All fields of a constraint, one after another: at most four, so straight code and no loop.
ghost use Rattle.std.specs.Prelude.{◌≡◌, ◌≤◌, ◌<◌, length};
ghost use Rattle.scope.specs.Instance.{fields_read};
ghost use Rattle.fields.specs.Answers.{said_flat};
ghost use Rattle.fields.specs.Kind.{number_of};
ghost use Rattle.fields.specs.Flat.{row_of, BoundsRead, left_after};

use crate::field::{first_at, second_at, third_at};
use crate::flat::{Flat, push, put};
use crate::kind::KindName;
use crate::table::{Totals, first_listed, second_listed};
use number::limited;
use scope::Parsed;

// The last kinds, 10 and 11, after the second field: the longest length; a gap's lo and hi. They have limits of their own and go their
// own way: a choice between two reads that meet again costs about ten instructions, in every kind.
fn last_kinds_at(s: &[u8], at: usize, kind: KindName, t: Totals, w: Flat) -> Parsed<Flat>
    requires { 9 < number_of kind }
    ensures { BoundsRead (number_of kind) t w s.now at result }
{
    let (v, after) = third_at(s, at, kind, t)?;
    let third = push(w, v);
    match kind {
        KindName::Lengths => Ok((third, after)),
        _ => {
            let (u, next) = limited(s, after, 0, 124)?;
            let fourth = push(third, u);
            Ok((fourth, next))
        }
    }
}

// The fields after the second: none, one or two numbers.
fn bounds_at(s: &[u8], at: usize, kind: KindName, t: Totals, w: Flat) -> Parsed<Flat>
    ensures { BoundsRead (number_of kind) t w s.now at result }
{
    match kind {
        KindName::Clash | KindName::Unavailable | KindName::Preferred => return Ok((w, at)),
        KindName::Lengths | KindName::Precedence => return last_kinds_at(s, at, kind, t, w),
        _ => {}
    }
    let (v, after) = limited(s, at, 0, 255)?;
    let third = push(w, v);
    match kind {
        KindName::Split => Ok((third, after)),
        _ => {
            let (u, next) = limited(s, after, 0, 255)?;
            let fourth = push(third, u);
            Ok((fourth, next))
        }
    }
}

// The fields after the first.
fn more_at(
    s: &[u8],
    at: usize,
    kind: KindName,
    t: Totals,
    w: Flat,
    list: &mut [u16],
) -> Parsed<Flat>
    requires list_len { length list.old ≡ 2048 }
    requires groups_bound { t.groups ≤ 2048 }
    ensures { said_flat (number_of kind) list.new result ≡ left_after 1 t (number_of kind) w list.old s.now at }
{
    match kind {
        KindName::Clash => Ok((w, at)),
        _ => {
            let (v, next) = second_at(s, at, kind, t, list)?;
            let two = put(w, second_listed(kind), v);
            bounds_at(s, next, kind, t, two)
        }
    }
}

// The fields of a kind. The list stands in the store.
pub fn fields_at(s: &[u8], at: usize, kind: KindName, t: Totals, list: &mut [u16]) -> Parsed<Flat>
    requires list_len { length list.old ≡ 2048 }
    requires events_bound { t.events ≤ 2048 }
    requires groups_bound { t.groups ≤ 2048 }
    ensures { said_flat (number_of kind) list.new result ≡ fields_read (row_of t (number_of kind)) s.now at }
{
    let (v, next) = first_at(s, at, kind, t, list)?;
    let none = Flat {
        a: 0,
        b: 0,
        c: 0,
        d: 0,
        list: 0,
    };
    let one = put(none, first_listed(kind), v);
    more_at(s, next, kind, t, one, list)
}
