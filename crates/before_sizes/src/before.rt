// What stands before the constraints: starts, uses and durations.
ghost use Rattle.std.specs.Prelude.{◌≡◌, List, ℕ, ◌*◌, ◌≤◌, ◌<◌, length, get_or};
ghost use Rattle.scope.specs.Kinds.{Event, up_to};
ghost use Rattle.tables.specs.Rows.{events_of};
ghost use Rattle.sizing.specs.Sums.{Within};
ghost use Rattle.measuring.specs.Blocks.{uses_size, durations_size};
ghost use Rattle.before_sizes.specs.Before.{Users, Begun, blocks_size};

use constraint::Head;
use sizing::Size;
use sizing::blocks::{starts_size, use_size};
use sizing::counts::list_size;
use sizing::sums::{nothing, plus};

// X of each resource, where users is the table of the users of each resource.
fn uses_size(times: u32, resources: u32, users: &[u16]) -> Size
    requires { (times ≤ 125) × (resources ≤ 99) × (length users.now ≡ 102500) × ((r : ℕ) → get_or users.now (r * 1025) 0 ≤ 1024) }
    ensures { Within (resources * 384125) result × ((es : List Event) → Users users.now es → result ≡ uses_size times es (up_to resources)) }
{
    let t = times as u64;
    let mut sum = nothing();
    for i in 0..resources as usize {
        let at = (i + 1) * 1025;
        let n = users[at] as u64;
        let one = use_size(t, n);
        sum = plus(sum, one);
    }
    sum
}

// The counted times of each event.
fn durations_size(times: u32, events: u32, durations: &[u8]) -> Size
    requires { (times ≤ 125) × (events ≤ 1024) × (length durations.now ≡ 1024) × ((e : ℕ) → e < events → get_or durations.now e 0 ≤ times) }
    ensures { Within (events * 1225275) result × ((t : List ℕ) → result ≡ durations_size times (events_of durations.now t events)) }
{
    let t = times as u64;
    let mut sum = nothing();
    for e in 0..events as usize {
        let d = durations[e] as u64;
        let one = list_size(0, d, d, false, t);
        sum = plus(sum, one);
    }
    sum
}

// What stands before the constraints: starts, uses and durations.
pub fn before_size(head: Head, users: &[u16], durations: &[u8]) -> Size
    requires { Begun users.now durations.now head }
    ensures { Within 2147483648 result × ((t : List ℕ) → Users users.now (events_of durations.now t head.events)
        → result ≡ blocks_size head (events_of durations.now t head.events)) }
{
    let starts = starts_size(head.events as u64, head.times as u64);
    let uses = uses_size(head.times, head.resources, users);
    let durations = durations_size(head.times, head.events, durations);
    let rest = plus(uses, durations);
    plus(starts, rest)
}
