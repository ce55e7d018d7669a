// The calendar as an array: a row of up to 24 periods for each of seven days, by value.
ghost use Rattle.std.specs.Prelude.{◌≡◌, ◌≤◌};
ghost use Rattle.scope.specs.Parsed.{repeat};
ghost use Rattle.scope.specs.Calendar.{day_at};
ghost use Rattle.parsing.specs.Parsing.{list_of};
ghost use Rattle.calendar.specs.Rows.{day_row, calendar_rows};

use crate::calendar::day_at;
use crate::period::{limited_in, period_at};

// A period of a day with the number of its time.
#[derive(Clone, Copy)]
pub struct Period {
    pub start: u32,
    pub end: u32,
    pub time: u8,
}

// The periods of a day, after so many times of the days before it.
fn day_of(s: &[u8], at: usize, time: u32) -> [Option<Period>; 24]
    requires { time ≤ 168 }
    ensures { result ≡ day_row time (list_of (day_at s.now at)) }
{
    let mut day = [None; 24];
    let Ok((count, start)) = limited_in(s, at, at, 0, 24) else {
        return day;
    };
    let mut next = start;
    let mut before: u32 = 0;
    for i in 0..count as usize {
        let Ok(((from, end), after)) = period_at(s, next, before) else {
            return [None; 24];
        };
        let number = time + i as u32 + 1;
        day[i] = Some(Period {
            start: from,
            end,
            time: number as u8,
        });
        before = end;
        next = after;
    }
    day
}

// All seven days; blank ones where the calendar is refused.
pub fn calendar_of(s: &[u8], at: usize) -> [[Option<Period>; 24]; 7]
    ensures { result ≡ calendar_rows (list_of (repeat 7 (day_at s.now) at)) }
{
    let none = [None; 24];
    let mut days = [none; 7];
    let mut next = at;
    let mut time: u32 = 0;
    for d in 0..7 {
        let Ok((count, after)) = day_at(s, next) else {
            return [none; 7];
        };
        let day = day_of(s, next, time);
        days[d] = day;
        time += count;
        next = after;
    }
    days
}
