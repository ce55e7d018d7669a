// How often each resource is used at each time: a row of T counts for each resource, of the events that use it and take the time.
#![tactic(auto)]

ghost use Rattle.std.specs.Prelude.{◌≡◌, ℕ, ◌+◌, ◌*◌, ◌≤◌, ◌<◌, cond, length, get_or, eqb, ltb};
ghost use Rattle.tables.specs.Rows.{row_at};
ghost use Rattle.resource_uses.specs.Uses.{RowAdded, EventAdded, Addable, Countable, UsesOf, Marked};

use tables::{row_len, row_member};

// 1 for a byte 1, 0 for any other.
pub fn bit_of(x: u8) -> u32
    ensures { (result ≡ cond (eqb x 1) 1 0) × (result ≤ 1) }
{
    u32::from(x == 1)
}

// One more for each taken time of an event, in a row of counts. The event's times begin at y, the row at base.
fn add_taken(uses: &mut [u16], base: usize, bytes: &[u8], y: usize, times: usize)
    requires { (base + times ≤ length uses.old) × ((y + times ≤ length bytes.now) × ((t : ℕ) → t < times → get_or uses.old (base + t) 0 < 65535)) }
    ensures { RowAdded uses.old bytes.now base y times uses.new }
{
    for t in 0..times {
        uses[base + t] += bit_of(bytes[y + t]) as u16;
    }
}

// One more at each taken time of event e, counted from 0, for each of its resources.
fn add_event(uses: &mut [u16], resources: &[u8], bytes: &[u8], e: usize, times: usize)
    requires { Addable times uses.old resources.now bytes.now e }
    ensures { EventAdded times uses.old bytes.now (e * times) (row_at resources.now e) uses.new }
{
    let y = e * times;
    for k in 0..row_len(resources, e) {
        let r = row_member(resources, e, k) as usize;
        add_taken(uses, (r - 1) * times, bytes, y, times);
    }
}

// The counts of so many events, into counts that are 0.
pub fn count_uses(uses: &mut [u16], resources: &[u8], bytes: &[u8], events: usize, times: usize)
    requires { Countable times uses.old resources.now bytes.now events × ((k : ℕ) → get_or uses.old k 0 ≡ 0) }
    ensures { UsesOf times bytes.now resources.now events uses.new }
{
    for e in 0..events {
        add_event(uses, resources, bytes, e, times);
    }
}

// X: a byte 1 for each count above 0.
pub fn mark_used(uses: &[u16], used: &mut [u8])
    requires { length used.old ≡ length uses.now }
    ensures { Marked uses.now used.new }
{
    for k in 0..uses.len() {
        used[k] = above_zero(uses[k]);
    }
}

fn above_zero(n: u16) -> u8
    ensures { result ≡ cond (ltb 0 n) 1 0 }
{
    u8::from(0 < n)
}
