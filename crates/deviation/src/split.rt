// Kind 4: the starts of an event.
ghost use Rattle.std.specs.Prelude.{◌≡◌, ◌*◌};
ghost use Rattle.scope.specs.Kinds.{split};
ghost use Rattle.constraint.specs.Answers.{counts_in};
ghost use Rattle.constraint.specs.Valid.{InRange};
ghost use Rattle.deviation.specs.Charge.{BytesIn, split_charge};

use crate::charge::deviation;
use crate::rows::{row_of, starts_of};
use constraint::{Head, Split};
use timetable::bytes::ones;

pub fn of_split(f: Split, head: Head, bytes: &[u8]) -> u32
    requires { BytesIn (counts_in head) bytes.now × InRange (counts_in head) (split f.event f.lo f.hi) }
    ensures { result ≡ split_charge (head.events * head.times) head.times bytes.now f.event f.lo f.hi }
{
    let base = starts_of(head) + row_of(f.event, head.times);
    let times = head.times as usize;
    let count = ones(bytes, base, times);
    deviation(f.lo, f.hi, count)
}
