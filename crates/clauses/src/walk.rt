// The walk over the constraints of an accepted file.
ghost use Rattle.std.specs.Prelude.{◌≤◌};
ghost use Rattle.constraint.specs.Walk.{constraints_in};
ghost use Rattle.sink.specs.Run.{Ran};
ghost use Rattle.sink.specs.Lines.{lines};
ghost use Rattle.sink.specs.World.{world, step};
ghost use Rattle.clauses.specs.Walked.{Walkable, items_of};

use crate::part::write_constraint;
use constraint::{Head, constraint_at};
use sink::{Job, Sink};

// All constraints in file order, from the variable first on.
pub fn write_constraints(
    job: Job,
    model: &[u8],
    text: &mut [u8],
    words: &mut [u32],
    s: Sink,
    file: &[u8],
    head: Head,
    durations: &[u8],
    users: &[u16],
    groups: &[u8],
    list: &mut [u16],
    first: u32,
) -> Sink
    requires { Walkable file.now durations.now users.now groups.now list.old head first × (s.at ≤ 9223372036854775807) }
    ensures { Ran (step job model.now)
        (lines first (items_of durations.now users.now groups.now head (constraints_in head file.now) first))
        (world s text.old words.old) (world result text.new words.new) }
{
    // of fixed size: there is no heap
    let mut store = [0u32; 34816];
    let mut z = s;
    let mut v = first;
    let mut next = head.start;
    for i in 0..head.constraints {
        let x = constraint_at(file, next, head, list);
        let Ok((c, after)) = x else {
            return z;
        };
        let w = write_constraint(
            job, model, text, words, z, c, head, durations, users, groups, list, v, &mut store,
        );
        z = w.sink;
        v = w.next;
        next = after;
    }
    z
}
