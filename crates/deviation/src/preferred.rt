// Kind 3: the times of an event that are held by a subevent that starts outside a group. One turn for each time of the group, then
// one for each time, from the first to the last.
ghost use Rattle.std.specs.Prelude.{◌≡◌, Bool, cond, ℕ, ◌*◌, ◌≤◌, ◌+◌, length};
ghost use Rattle.scope.specs.Kinds.{preferred};
ghost use Rattle.tables.specs.Rows.{row_at, RowIn};
ghost use Rattle.constraint.specs.Answers.{counts_in};
ghost use Rattle.constraint.specs.Valid.{InRange};
ghost use Rattle.deviation.specs.Charge.{BytesIn, GroupsIn, preferred_charge};
ghost use Rattle.deviation.specs.Held.{times_held_at, outside_of, Flaggable, Flagged};

use crate::rows::{row_of, starts_of};
use constraint::{Head, Preferred};
use tables::{row_len, row_member};

// Flags that are 1 become 0 at the times of a group: those at the times outside it stay.
fn flag_outside(groups: &[u8], g: usize, flags: &mut [u8])
    requires { RowIn groups.now g × Flaggable (row_at groups.now g) flags.old }
    ensures { Flagged (outside_of (row_at groups.now g)) flags.new }
{
    for k in 0..row_len(groups, g) {
        let t = row_member(groups, g, k) as usize;
        flags[t] = 0;
    }
}

// 1 where a subevent that starts at a flagged time holds a time, else 0: at a start the flag, at another taken time what was said of
// the time before.
fn held_at(taken: bool, start: bool, flag: u32, before: u32) -> u32
    requires { (flag ≤ 255) × (before ≤ 255) }
    ensures { (result ≡ cond taken (cond start flag before) 0) × (result ≤ 255) }
{
    if taken {
        if start {
            return flag;
        }
        return before;
    }
    0
}

// How many of n times are held by a subevent that starts at a flagged time. The bytes of Y begin at one offset, those of S at
// another.
fn count_held(bytes: &[u8], takes: usize, starts: usize, n: usize, flags: &[u8]) -> u32
    requires { (takes + n ≤ length bytes.now) × ((starts + n ≤ length bytes.now) × ((n ≤ 125) × (length flags.now ≡ 126))) }
    ensures { (such : ℕ → Bool) → Flagged such flags.now → result ≡ times_held_at n bytes.now takes starts such }
{
    let mut count = 0;
    let mut held = 0;
    for i in 0..n {
        let taken = bytes[takes + i] == 1;
        let start = bytes[starts + i] == 1;
        let flag = u32::from(flags[i + 1]);
        held = held_at(taken, start, flag, held);
        count += held;
    }
    count
}

pub fn of_preferred(f: Preferred, head: Head, bytes: &[u8], groups: &[u8]) -> u32
    requires { BytesIn (counts_in head) bytes.now × (GroupsIn (counts_in head) groups.now × InRange (counts_in head) (preferred f.event f.group)) }
    ensures { result ≡ preferred_charge (head.events * head.times) head.times bytes.now groups.now f.event f.group }
{
    let g = (f.group - 1) as usize;
    // of fixed size: there is no heap
    let mut flags = [1u8; 126];
    flag_outside(groups, g, &mut flags);
    let takes = row_of(f.event, head.times);
    let starts = starts_of(head) + takes;
    let times = head.times as usize;
    count_held(bytes, takes, starts, times, &flags)
}
