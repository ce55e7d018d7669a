// Reading the whole file: sizes, events and groups into tables, then the constraints.
ghost use Rattle.std.specs.Prelude.{◌≡◌, List, ℕ, Ok};
ghost use Rattle.scope.specs.Instance.{parse};
ghost use Rattle.constraint_end.specs.Ready.{Lent};
ghost use Rattle.instance.specs.Answers.{said_sizes, said_tables, said_file, head_of};
ghost use Rattle.instance.specs.File.{sizes_in, tables_at};
ghost use Rattle.instance.specs.Stores.{Tables, Stores};

use crate::walk::constraints_whole;
use calendar::times_at;
use constraint::Head;
use number::limited;
use scope::{Parsed, Refusal};
use table_lists::events_at;
use windows::all_groups_at;

// How many times, events, resources and groups there are.
#[derive(Clone, Copy)]
pub struct Sizes {
    pub times: u32,
    pub events: u32,
    pub resources: u32,
    pub groups: u32,
}

// Times, events and resources; the groups come later.
fn sizes_at(s: &[u8]) -> Parsed<Sizes>
    ensures { said_sizes result ≡ sizes_in s.now }
{
    let (times, a) = times_at(s)?;
    let (events, b) = limited(s, a, 1, 1024)?;
    let (resources, c) = limited(s, b, 0, 99)?;
    let w = Sizes {
        times,
        events,
        resources,
        groups: 0,
    };
    Ok((w, c))
}

// The sizes, and the events, groups and windows into their tables.
fn tables_at(
    s: &[u8],
    durations: &mut [u8],
    resources: &mut [u8],
    groups: &mut [u8],
) -> Parsed<Sizes>
    requires { Tables s.now durations.old resources.old groups.old }
    ensures { said_tables durations.new resources.new groups.new result ≡ tables_at s.now }
{
    let (w, a) = sizes_at(s)?;
    let (_, b) = events_at(s, a, w.events, w.times, w.resources, durations, resources)?;
    let (count, c) = all_groups_at(s, b, w.times, groups)?;
    Ok((Sizes { groups: count, ..w }, c))
}

// The constraints up to the file's end, once its sizes and tables are read.
fn rest_at(
    file: &[u8],
    w: Sizes,
    at: usize,
    resources: &[u8],
    groups: &[u8],
    list: &mut [u16],
) -> Result<Head, Refusal>
    requires { (count start : ℕ) → Lent resources.now groups.now list.old (head_of w count start) }
    ensures { (d : List ℕ) → said_tables d resources.now groups.now (Ok (w, at)) ≡ tables_at file.now
        → said_file file.now d resources.now groups.now result ≡ parse file.now }
{
    let (constraints, start) = limited(file, at, 0, 4096)?;
    let head = Head {
        times: w.times,
        events: w.events,
        resources: w.resources,
        groups: w.groups,
        constraints,
        start,
    };
    constraints_whole(file, head, resources, groups, list)?;
    Ok(head)
}

// The whole file, its events and groups into the tables; list is a store for a constraint's list.
// The stores are parameters, since each operation lends those that it has: there is no heap.
pub fn read(
    file: &[u8],
    durations: &mut [u8],
    resources: &mut [u8],
    groups: &mut [u8],
    list: &mut [u16],
) -> Result<Head, Refusal>
    requires { Stores file.now durations.old resources.old groups.old list.old }
    ensures { said_file file.now durations.new resources.new groups.new result ≡ parse file.now }
{
    let (w, at) = tables_at(file, durations, resources, groups)?;
    rest_at(file, w, at, resources, groups, list)
}
