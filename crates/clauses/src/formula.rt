// The whole formula.
ghost use Rattle.std.specs.Prelude.{◌≤◌};
ghost use Rattle.instance.specs.Answers.{instance_of};
ghost use Rattle.sink.specs.Run.{Ran};
ghost use Rattle.sink.specs.World.{world, step};
ghost use Rattle.clauses.specs.Writable.{Writable, formula_lines};

use crate::before::write_before;
use crate::walk::write_constraints;
use constraint::Head;
use sink::{Job, Sink};

// The file's events and groups stand in the tables; list is a store for a constraint's list. The users of each resource are
// found once for all.
pub fn write_formula(
    job: Job,
    model: &[u8],
    text: &mut [u8],
    words: &mut [u32],
    s: Sink,
    file: &[u8],
    head: Head,
    durations: &[u8],
    resources: &[u8],
    groups: &[u8],
    list: &mut [u16],
) -> Sink
    requires { Writable file.now durations.now resources.now groups.now list.old head × (s.at ≤ 9223372036854775807) }
    ensures { Ran (step job model.now)
        (formula_lines (instance_of file.now durations.now resources.now groups.now head))
        (world s text.old words.old) (world result text.new words.new) }
{
    // of fixed size: there is no heap
    let mut users = [0u16; 102500];
    user_table::fill_users(resources, head.events, &mut users);
    let b = write_before(job, model, text, words, s, head, durations, &users);
    let z = b.sink;
    let v = b.next;
    write_constraints(
        job, model, text, words, z, file, head, durations, &users, groups, list, v,
    )
}
