// Kind 11: the gap between two events. One turn for each time of the first event, from the last down to one that it takes, then one
// for each time of the second, up to one that it takes.
ghost use Rattle.std.specs.Prelude.{◌≡◌, ◌≤◌};
ghost use Rattle.scope.specs.Kinds.{precedence};
ghost use Rattle.scope.specs.Gap.{first_time, last_time};
ghost use Rattle.constraint.specs.Answers.{counts_in};
ghost use Rattle.constraint.specs.Valid.{OneOf, InRange};
ghost use Rattle.deviation.specs.Gap.{taken_in};
ghost use Rattle.deviation.specs.Charge.{BytesIn, precedence_charge};

use crate::rows::row_of;
use constraint::{Head, Precedence};

// The first time that an event takes, 0 if it takes none, as the definitions say it.
fn first_taken(bytes: &[u8], event: u32, head: Head) -> usize
    requires { BytesIn (counts_in head) bytes.now × OneOf head.events event }
    ensures { result ≡ first_time head.times (taken_in head.times bytes.now) event }
{
    let base = row_of(event, head.times);
    for i in 0..head.times as usize {
        if bytes[base + i] == 1 {
            return i + 1;
        }
    }
    0
}

// The last time that an event takes, over all its subevents, 0 if it takes none, as the definitions say it.
fn last_taken(bytes: &[u8], event: u32, head: Head) -> usize
    requires { BytesIn (counts_in head) bytes.now × OneOf head.events event }
    ensures { (result ≡ last_time head.times (taken_in head.times bytes.now) event) × (result ≤ 125) }
{
    let base = row_of(event, head.times);
    for t in (0..head.times as usize).rev() {
        if bytes[base + t] == 1 {
            return t + 1;
        }
    }
    0
}

// 1 if the gap lies outside lo to hi: the second event begins too soon after the last time of the first, or too late; else 0.
pub fn of_precedence(f: Precedence, head: Head, bytes: &[u8]) -> u32
    requires { BytesIn (counts_in head) bytes.now × InRange (counts_in head) (precedence f.first f.second f.lo f.hi) }
    ensures { result ≡ precedence_charge head.times bytes.now f.first f.second f.lo f.hi }
{
    let after = last_taken(bytes, f.first, head) + 1;
    let begin = first_taken(bytes, f.second, head);
    let soonest = after + f.lo as usize;
    let latest = after + f.hi as usize;
    if begin < soonest {
        return 1;
    }
    if latest < begin {
        return 1;
    }
    0
}
