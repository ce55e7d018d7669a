// The literals of some events.
ghost use Rattle.std.specs.Prelude.{◌-◌, ◌*◌, ◌≤◌, ◌<◌, length, take};
ghost use mathlib.Core.List.{map, flat_map};
ghost use Rattle.parsing.specs.Each.{Each};
ghost use Rattle.tables.specs.Rows.{row_at};
ghost use Rattle.literals.specs.Variables.{y_at, in_block, Block, Within, GroupIn};
ghost use Rattle.literals.specs.Words.{Holds};

use crate::times::group_times;
use crate::variable::{base, literal};

// Y of some events at time t.
pub fn y_of_events(events: &[u16], times: u32, t: u32, out: &mut [u32]) -> usize
    requires { Each (Within 1024) events.now × ((length events.now ≤ length out.old) × ((times ≤ 125) × (t ≤ 125))) }
    ensures { Holds out.new result (map (λ e. y_at times e t) events.now) }
{
    let n = events.len();
    for k in 0..n {
        let b = base(0, times, u32::from(events[k]));
        out[k] = literal(b, t);
    }
    n
}

// S of some events at the times of a group, event by event, in the block after `starts` variables.
pub fn s_spread(
    events: &[u16],
    groups: &[u8],
    g: u32,
    times: u32,
    starts: u32,
    out: &mut [u32],
) -> usize
    requires { Each (Within 1024) events.now
        × (GroupIn groups.now g × (Block times starts × (length events.now * length (row_at groups.now (g - 1)) ≤ length out.old))) }
    ensures { Holds out.new result (flat_map (λ e. map (in_block times starts e) (row_at groups.now (g - 1))) events.now) }
{
    let mut at: usize = 0;
    for k in 0..events.len() {
        let b = base(starts, times, u32::from(events[k]));
        at = group_times(groups, g, b, at, out);
    }
    at
}
