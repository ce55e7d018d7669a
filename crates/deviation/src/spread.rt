// Kind 5: the starts of some events at the times of a group.
ghost use Rattle.std.specs.Prelude.{◌≡◌, ◌-◌, ◌*◌, ◌+◌};
ghost use Rattle.scope.specs.Kinds.{spread};
ghost use Rattle.scope.specs.Score.{trues};
ghost use Rattle.number.specs.Lists.{leading};
ghost use Rattle.tables.specs.Rows.{row_at};
ghost use Rattle.constraint.specs.Answers.{counts_in};
ghost use Rattle.constraint.specs.Valid.{InRange};
ghost use Rattle.timetable.specs.Bits.{marks};
ghost use Rattle.deviation.specs.Charge.{BytesIn, GroupsIn, ListIn, spread_charge};
ghost use Rattle.deviation.specs.Sums.{total, EventsListed};

use crate::charge::deviation;
use crate::group::ones_in;
use crate::rows::starts_of;
use constraint::{Head, Spread};

// The bytes 1 of the first n events of a list, at the times of a group. The list stands in a store of fixed size, so its length
// stands beside it. The bytes of event 1 begin at base, those of the next so many times after it.
fn ones_of_events(
    bytes: &[u8],
    base: usize,
    times: usize,
    groups: &[u8],
    g: usize,
    list: &[u16],
    n: usize,
) -> u32
    requires { EventsListed bytes.now base times groups.now g list.now n }
    ensures { result ≡ total (λ e. trues (marks bytes.now (base + (e - 1) * times) (row_at groups.now g))) (leading n list.now) }
{
    let mut sum = 0;
    for k in 0..n {
        let e = list[k] as usize;
        sum += ones_in(bytes, base + (e - 1) * times, groups, g);
    }
    sum
}

pub fn of_spread(f: Spread, head: Head, bytes: &[u8], groups: &[u8], list: &[u16]) -> u32
    requires { BytesIn (counts_in head) bytes.now × (GroupsIn (counts_in head) groups.now
        × (ListIn f.events list.now × InRange (counts_in head)
        (spread (leading f.events list.now) f.group f.lo f.hi))) }
    ensures { result ≡ spread_charge (head.events * head.times) head.times bytes.now groups.now
        (leading f.events list.now) f.group f.lo f.hi }
{
    let base = starts_of(head);
    let times = head.times as usize;
    let g = (f.group - 1) as usize;
    let n = f.events as usize;
    let count = ones_of_events(bytes, base, times, groups, g, list, n);
    deviation(f.lo, f.hi, count)
}
