// How many periods a calendar has, and where it ends.
ghost use Rattle.std.specs.Prelude.{◌≡◌};
ghost use Rattle.scope.specs.Answers.{said};
ghost use Rattle.scope.specs.Calendar.{day_at, calendar_at};
ghost use Rattle.scope.specs.Instance.{times_at};
ghost use Rattle.calendar.specs.Answers.{counted, totalled, times_counted};

use crate::period::{limited_in, period_at};
use number::limited;
use scope::{Parsed, Reason, Refusal};

// A day: the answer has the number of its periods.
pub fn day_at(s: &[u8], at: usize) -> Parsed<u32>
    ensures { said result ≡ counted (day_at s.now at) }
{
    let (count, start) = limited_in(s, at, at, 0, 24)?;
    let mut next = start;
    let mut before: u32 = 0;
    for i in 0..count {
        let ((_, end), after) = period_at(s, next, before)?;
        before = end;
        next = after;
    }
    Ok((count, next))
}

// Seven days, then 22 at the file's first byte for no periods or more than 125; the answer has the number of all periods.
fn calendar_at(s: &[u8], at: usize) -> Parsed<u32>
    ensures { said result ≡ totalled (calendar_at s.now at) }
{
    let mut next = at;
    let mut total: u32 = 0;
    for _day in 0..7u32 {
        let (count, after) = day_at(s, next)?;
        total += count;
        next = after;
    }
    let bad = Refusal {
        reason: Reason::BadCalendar,
        value: 0,
    };
    if total < 1 {
        return Err(bad);
    }
    if 125 < total {
        return Err(bad);
    }
    Ok((total, next))
}

// The times of a file, given or counted in its calendar.
pub fn times_at(s: &[u8]) -> Parsed<u32>
    ensures { said result ≡ times_counted (times_at s.now) }
{
    let (times, next) = limited(s, 0, 0, 125)?;
    if times == 0 {
        return calendar_at(s, next);
    }
    Ok((times, next))
}
