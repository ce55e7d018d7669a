// Kind 9: the subevents of an event that have a length.
ghost use Rattle.std.specs.Prelude.{◌≡◌, ◌*◌};
ghost use Rattle.scope.specs.Kinds.{distribute};
ghost use Rattle.constraint.specs.Answers.{counts_in};
ghost use Rattle.constraint.specs.Valid.{InRange};
ghost use Rattle.deviation.specs.Charge.{BytesIn, distribute_charge};

use crate::charge::deviation;
use crate::subevents::{Wanted, subevents_of};
use constraint::{Distribute, Head};

pub fn of_distribute(f: Distribute, head: Head, bytes: &[u8]) -> u32
    requires { BytesIn (counts_in head) bytes.now × InRange (counts_in head) (distribute f.event f.length f.lo f.hi) }
    ensures { result ≡ distribute_charge (head.events * head.times) head.times bytes.now f.event f.length f.lo f.hi }
{
    let wanted = Wanted {
        from: f.length,
        to: f.length,
        outside: false,
    };
    let count = subevents_of(f.event, head, bytes, wanted);
    deviation(f.lo, f.hi, count)
}
