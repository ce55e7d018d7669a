// Reading the lists of events and of time groups into tables: one turn for each number.
#![tactic(auto)]

ghost use Rattle.std.specs.Prelude.{◌≡◌, ◌≤◌, length};
ghost use Rattle.scope.specs.Parsed.{repeat};
ghost use Rattle.scope.specs.Number.{listed};
ghost use Rattle.scope.specs.Instance.{event_at, groups_at};
ghost use Rattle.table_lists.specs.Answers.{said_row, said_rows, said_event, said_events};

use number::{limited, reference};
use scope::Parsed;

// A list of references to n things, into a row.
fn row_at(s: &[u8], at: usize, n: u32, row: &mut [u8]) -> Parsed<u32>
    requires row_len { length row.old ≡ 126 }
    requires n_bound { n ≤ 125 }
    ensures { said_row row.new result ≡ listed n s.now at }
{
    let (count, start) = limited(s, at, 0, n)?;
    row[0] = count as u8;
    let mut next = start;
    let mut before: u32 = 0;
    for i in 0..count as usize {
        let (v, after) = reference(s, next, before, n)?;
        row[1 + i] = v as u8;
        before = v;
        next = after;
    }
    Ok((count, next))
}

// An event: the answer has its duration, the row its resources.
fn event_at(s: &[u8], at: usize, times: u32, resources: u32, row: &mut [u8]) -> Parsed<u32>
    requires row_len { length row.old ≡ 126 }
    requires resources_bound { resources ≤ 125 }
    ensures { said_event row.new result ≡ event_at times resources s.now at }
{
    let (duration, next) = limited(s, at, 1, times)?;
    let (_, end) = row_at(s, next, resources, row)?;
    Ok((duration, end))
}

// So many events: their durations, and a row of resources for each.
pub fn events_at(
    s: &[u8],
    at: usize,
    count: u32,
    times: u32,
    resources: u32,
    durations: &mut [u8],
    table: &mut [u8],
) -> Parsed<u32>
    requires durations_len { length durations.old ≡ 1024 }
    requires table_len { length table.old ≡ 129024 }
    requires count_bound { count ≤ 1024 }
    requires times_bound { times ≤ 125 }
    requires resources_bound { resources ≤ 125 }
    ensures { said_events count durations.new table.new result ≡ repeat count (event_at times resources s.now) at }
{
    let mut next = at;
    for e in 0..count as usize {
        let base = e * 126;
        let end = base + 126;
        let (duration, after) = event_at(s, next, times, resources, &mut table[base..end])?;
        durations[e] = duration as u8;
        next = after;
    }
    Ok((count, next))
}

// The time groups, a row for each; the answer has their count.
pub fn groups_at(s: &[u8], at: usize, times: u32, table: &mut [u8]) -> Parsed<u32>
    requires in_bounds { 129024 ≤ length table.old }
    requires times_bound { times ≤ 125 }
    ensures { said_rows table.new result ≡ groups_at 1024 times s.now at }
{
    let (count, start) = limited(s, at, 0, 1024)?;
    let mut next = start;
    for g in 0..count as usize {
        let base = g * 126;
        let end = base + 126;
        let (_, after) = row_at(s, next, times, &mut table[base..end])?;
        next = after;
    }
    Ok((count, next))
}
