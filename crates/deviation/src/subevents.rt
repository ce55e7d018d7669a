// The subevents of an event that have a wanted length: one turn for each time, from the last to the first.
ghost use Rattle.std.specs.Prelude.{◌≡◌, ◌-◌, ◌*◌, ◌≤◌, ◌+◌, length};
ghost use Rattle.constraint.specs.Answers.{counts_in};
ghost use Rattle.constraint.specs.Valid.{OneOf};
ghost use Rattle.deviation.specs.Charge.{BytesIn};
ghost use Rattle.deviation.specs.Subevents.{subevents_at, is_wanted, runs_after};

use crate::rows::{row_of, starts_of};
use constraint::Head;

// The lengths that are wanted: those from one to another, or all outside them.
#[derive(Clone, Copy)]
pub struct Wanted {
    pub from: u32,
    pub to: u32,
    pub outside: bool,
}

// A walk back over an event's times: how many subevents have a wanted length, and how many times, from the last one passed
// on, go on with the subevent before them: taken and no start, one after another.
#[derive(Clone, Copy)]
pub struct Runs {
    pub count: u32,
    pub run: u32,
}

fn is_wanted(length: u32, wanted: Wanted) -> bool
    ensures { result ≡ is_wanted wanted length }
{
    if length < wanted.from {
        return wanted.outside;
    }
    if wanted.to < length {
        return wanted.outside;
    }
    !wanted.outside
}

// One time further back. A subevent that starts there has the length of the run and 1.
fn pass(w: Runs, taken: bool, start: bool, wanted: Wanted) -> Runs
    requires { w.count + w.run ≤ 1000 }
    ensures { (result ≡ runs_after wanted w taken start) × (result.count + result.run ≤ w.count + w.run + 1) }
{
    if start {
        let length = w.run + 1;
        if is_wanted(length, wanted) {
            let count = w.count + 1;
            return Runs { count, run: 0 };
        }
        return Runs {
            count: w.count,
            run: 0,
        };
    }
    if taken {
        let run = w.run + 1;
        return Runs {
            count: w.count,
            run,
        };
    }
    Runs {
        count: w.count,
        run: 0,
    }
}

// How many subevents in n times have a wanted length. The bytes of Y begin at one offset, those of S at another.
fn count_wanted(bytes: &[u8], takes: usize, starts: usize, n: usize, wanted: Wanted) -> u32
    requires { (takes + n ≤ length bytes.now) × ((starts + n ≤ length bytes.now) × (n ≤ 125)) }
    ensures { result ≡ subevents_at n bytes.now takes starts (is_wanted wanted) }
{
    let mut w = Runs { count: 0, run: 0 };
    for i in (0..n).rev() {
        let taken = bytes[takes + i] == 1;
        let start = bytes[starts + i] == 1;
        w = pass(w, taken, start, wanted);
    }
    w.count
}

// How many subevents of an event have a wanted length.
pub fn subevents_of(event: u32, head: Head, bytes: &[u8], wanted: Wanted) -> u32
    requires { BytesIn (counts_in head) bytes.now × OneOf head.events event }
    ensures { result ≡ subevents_at head.times bytes.now ((event - 1) * head.times)
        (head.events * head.times + (event - 1) * head.times) (is_wanted wanted) }
{
    let takes = row_of(event, head.times);
    let starts = starts_of(head) + takes;
    let times = head.times as usize;
    count_wanted(bytes, takes, starts, times, wanted)
}
