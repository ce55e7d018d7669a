// The step of a walk over a group's members, for callers that count idle times while they draw a row.
ghost use Rattle.std.specs.Prelude.{◌≡◌};
ghost use Rattle.scope.specs.Idle.{fitted, idle_step_of};

use idle_step::step;
use scope::Kept;

// A number in 32 bits, or the largest that fits.
fn fitted(n: u64) -> u32
    ensures { result ≡ fitted n }
{
    n.min(u64::from(u32::MAX)) as u32
}

// What is kept after one member more, from what was kept before it and whether it has X. No value is refused.
#[unsafe(no_mangle)]
pub extern "C" fn timetable_idle_step(
    idle: u32,
    since: u32,
    seen: u32,
    used: u32,
    next_idle: &mut u32,
    next_since: &mut u32,
    next_seen: &mut u32,
)
    ensures { (next_idle.new, next_since.new, next_seen.new) ≡ idle_step_of idle since seen used }
{
    let kept = Kept {
        idle: u64::from(idle),
        since: u64::from(since),
        seen: seen != 0,
    };
    let next = step(kept, used != 0);
    *next_idle = fitted(next.idle);
    *next_since = fitted(next.since);
    *next_seen = u32::from(next.seen);
}
