// Block 2: X of each resource at each time, the OR of Y of its events.
ghost use mathlib.Core.List.{flat_map, map};
ghost use Rattle.std.specs.Prelude.{◌+◌, ◌*◌, ◌≤◌, length};
ghost use Rattle.scope.specs.Kinds.{up_to};
ghost use Rattle.scope.specs.Cnf.{gate};
ghost use Rattle.parsing.specs.Each.{Each};
ghost use Rattle.sink.specs.Run.{Ran};
ghost use Rattle.sink.specs.Lines.{lines};
ghost use Rattle.sink.specs.World.{world, step};
ghost use Rattle.literals.specs.Variables.{Within};
ghost use Rattle.user_table.specs.Filled.{users_at, UserRows};
ghost use Rattle.literals.specs.Numbered.{use_gates};

use sink::{Job, LAST, Sink};

// Those of one resource, of whose events the list is given, from the variable v on.
fn write_resource_uses(
    job: Job,
    model: &[u8],
    text: &mut [u8],
    words: &mut [u32],
    s: Sink,
    events: &[u16],
    times: u32,
    v: u32,
) -> Sink
    requires { Each (Within 1024) events.now × ((length events.now ≤ 1024) × ((times ≤ 125) × ((1 ≤ v) × (v + times ≤ 1073741824)))) }
    ensures { Ran (step job model.now) (lines v (map gate (use_gates times events.now)))
        (world s text.old words.old) (world result text.new words.new) }
{
    // of fixed size: there is no heap
    let mut buf = [0u32; 1025];
    let mut z = s;
    for t in 0..times {
        let m = literals::y_of_events(events, times, t + 1, &mut buf);
        buf[m] = 2 * (v + t) + 1 + LAST;
        let end = m + 1;
        z = node_clauses::write_node(job, model, text, words, z, &buf[..end]);
    }
    z
}

// Those of all resources, by the table of their users.
fn write_all_uses(
    job: Job,
    model: &[u8],
    text: &mut [u8],
    words: &mut [u32],
    s: Sink,
    users: &[u16],
    count: u32,
    times: u32,
    v: u32,
) -> Sink
    requires { UserRows users.now × ((count ≤ 99) × ((times ≤ 125) × ((1 ≤ v) × (v + count * times ≤ 1073741824)))) }
    ensures { Ran (step job model.now) (lines v (map gate (flat_map (λ r. use_gates times (users_at users.now r)) (up_to count))))
        (world s text.old words.old) (world result text.new words.new) }
{
    let mut z = s;
    let mut next = v;
    for r in 0..count {
        let events = user_table::users_of(users, r + 1);
        z = write_resource_uses(job, model, text, words, z, events, times, next);
        next += times;
    }
    z
}

// The same, passed over at once by a run that drops hard clauses.
pub fn write_uses(
    job: Job,
    model: &[u8],
    text: &mut [u8],
    words: &mut [u32],
    s: Sink,
    users: &[u16],
    count: u32,
    times: u32,
    v: u32,
) -> Sink
    requires { UserRows users.now × ((count ≤ 99) × ((times ≤ 125) × ((1 ≤ v) × (v + count * times ≤ 1073741824)))) }
    ensures { Ran (step job model.now) (lines v (map gate (flat_map (λ r. use_gates times (users_at users.now r)) (up_to count))))
        (world s text.old words.old) (world result text.new words.new) }
{
    if sink::skips(job) {
        return s;
    }
    write_all_uses(job, model, text, words, s, users, count, times, v)
}
