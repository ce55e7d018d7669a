// Refusals 10 to 12: whether some bytes are a timetable of E events and T times. The bytes are "taken", event by event, and then
// "starts".
ghost use Rattle.std.specs.Prelude.{◌≡◌, not, ◌&&◌, ◌||◌, map, ◌+◌, ◌*◌, ◌≤◌, length};
ghost use Rattle.scope.specs.Parsed.{answered};
ghost use Rattle.scope.specs.Answers.{means};
ghost use Rattle.scope.specs.Kinds.{up_to};
ghost use Rattle.scope.specs.Instance.{Instance};
ghost use Rattle.scope.specs.Score.{all, of_timetable};
ghost use Rattle.timetable.specs.Answers.{found_at};
ghost use Rattle.timetable.specs.Right.{start_at, event_at, wrong_from, Lasts};

use crate::bytes::{first_above, ones};
use scope::{Reason, Refusal};

// "a start is a taken time; a taken time whose predecessor isn't taken, or that is time 1, is a start"
fn start_right(start: bool, taken: bool, before: bool) -> bool
    ensures { result ≡ ((not start || taken) && (not taken || before || start)) }
{
    if start {
        return taken;
    }
    if taken {
        return before;
    }
    true
}

// Whether the starts of an event are right at each of n times. Its taken times begin at y, its starts as far after the cells.
fn starts_right(bytes: &[u8], cells: usize, y: usize, n: usize) -> bool
    requires { cells + (y + n) ≤ length bytes.now }
    ensures { result ≡ all (map (start_at bytes.now cells y) (up_to n)) }
{
    let mut before = false;
    for i in 0..n {
        let at = y + i;
        let taken = bytes[at] == 1;
        let start = bytes[cells + at] == 1;
        if !start_right(start, taken, before) {
            return false;
        }
        before = taken;
    }
    true
}

// Whether event e, counted from 0, takes so many times, and its starts are right.
fn event_right(bytes: &[u8], cells: usize, e: usize, times: usize, duration: u8) -> bool
    requires { (cells + (e * times + times) ≤ length bytes.now) × (times ≤ 125) }
    ensures { result ≡ event_at bytes.now cells (e * times) times duration }
{
    let y = e * times;
    if ones(bytes, y, times) != u32::from(duration) {
        return false;
    }
    starts_right(bytes, cells, y, times)
}

// The first event that is not right.
fn first_wrong(bytes: &[u8], durations: &[u8], events: usize, times: usize) -> Option<u64>
    requires { (length bytes.now ≡ 2 * (events * times)) × ((events ≤ length durations.now) × (times ≤ 125)) }
    ensures { found_at result ≡ wrong_from bytes.now durations.now (events * times) times 0 events }
{
    let cells = events * times;
    for e in 0..events {
        if !event_right(bytes, cells, e, times, durations[e]) {
            return Some(e as u64 + 1);
        }
    }
    None
}

// Whether some bytes are a timetable of an instance of so many events and times, with these durations; else the refusal of the
// bytes.
pub fn checked(bytes: &[u8], durations: &[u8], events: usize, times: usize) -> Result<(), Refusal>
    requires { (events ≤ 1024) × ((times ≤ 125) × (events ≤ length durations.now)) }
    ensures { (i : Instance) → Lasts i times events durations.now → means result ≡ of_timetable i bytes.now (answered tt) }
{
    let wanted = 2 * (events * times);
    if bytes.len() != wanted {
        return Err(Refusal {
            reason: Reason::WrongLength,
            value: wanted as u64,
        });
    }
    if let Some(value) = first_above(bytes) {
        return Err(Refusal {
            reason: Reason::AboveOne,
            value,
        });
    }
    if let Some(value) = first_wrong(bytes, durations, events, times) {
        return Err(Refusal {
            reason: Reason::NotATimetable,
            value,
        });
    }
    Ok(())
}
