// What is wrong with the fields of kinds 10 and 11, whatever the list. One reason at most, so that the checks at the end of every other
// constraint make one test of it.
ghost use Rattle.std.specs.Prelude.{◌≡◌, true, cond, not, leb, eqb};
ghost use Rattle.fields.specs.Kind.{number_of};
ghost use Rattle.constraint_end.specs.End.{fault};

use fields::{Flat, KindName};
use scope::Reason;

// 5 if the last two numbers are not in order: kind 10's lengths, kind 11's lo and hi.
fn in_order(w: Flat) -> Option<Reason>
    ensures { result ≡ fault true (leb w.c w.d) }
{
    if w.d < w.c {
        return Some(Reason::BadBounds);
    }
    None
}

// 19 if kind 11's two events are one, which comes before 5. Kind 10 has one event.
pub fn fault_of(kind: KindName, w: Flat) -> Option<Reason>
    ensures { result ≡ fault (cond (eqb (number_of kind) 10) true (not (eqb w.a w.b))) (leb w.c w.d) }
{
    match kind {
        KindName::Lengths => in_order(w),
        _ => {
            if w.a == w.b {
                Some(Reason::SameEvent)
            } else {
                in_order(w)
            }
        }
    }
}
