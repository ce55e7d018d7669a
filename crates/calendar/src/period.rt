// The numbers of a calendar: 22 in place of 2, at the first byte of what a number belongs to.
ghost use Rattle.std.specs.Prelude.{◌≡◌};
ghost use Rattle.scope.specs.Answers.{said};
ghost use Rattle.scope.specs.Calendar.{limited_in, period_at};
ghost use Rattle.calendar.specs.Answers.{said_period};

use number::number_at;
use scope::{Parsed, Reason, Refusal};

// The number at an offset, from lo to hi, of a count, period or window that begins at a place.
// number::limited gives another reason and offset; two tests are all that one function for both would hold.
pub fn limited_in(s: &[u8], at: usize, place: usize, lo: u32, hi: u32) -> Parsed<u32>
    ensures { said result ≡ limited_in place lo hi s.now at }
{
    let (v, next) = number_at(s, at)?;
    let outside = Refusal {
        reason: Reason::BadCalendar,
        value: place as u64,
    };
    if v < lo {
        return Err(outside);
    }
    if hi < v {
        return Err(outside);
    }
    Ok((v, next))
}

// A period's start and end, in minutes from midnight, where the one before it on its day ends.
pub fn period_at(s: &[u8], at: usize, before: u32) -> Parsed<(u32, u32)>
    ensures { said_period result ≡ period_at before s.now at }
{
    let (start, next) = limited_in(s, at, at, 0, 1440)?;
    let (end, after) = limited_in(s, next, at, 0, 1440)?;
    let bad = Refusal {
        reason: Reason::BadCalendar,
        value: at as u64,
    };
    if end <= start {
        return Err(bad);
    }
    if start < before {
        return Err(bad);
    }
    Ok(((start, end), after))
}
