// The counted lists of a constraint, whatever its kind: each is filled into a store of words, and written from there.
ghost use Rattle.std.specs.Prelude.{◌≡◌, length};
ghost use Rattle.constraint.specs.Answers.{kind_of};
ghost use Rattle.sink.specs.World.{world, step};
ghost use Rattle.items.specs.Written.{Room, Wrote};
ghost use Rattle.clauses.specs.Fits.{Fits, constraint_part};

use constraint::{Constraint, Head};
use items::Written;
use list::{fill, lists};
use list_clauses::list::write_list;
use sink::{Job, Sink};

// One after another, from the variable v on.
pub fn write_lists(
    job: Job,
    model: &[u8],
    text: &mut [u8],
    words: &mut [u32],
    s: Sink,
    c: Constraint,
    head: Head,
    durations: &[u8],
    users: &[u16],
    groups: &[u8],
    list: &[u16],
    v: u32,
    store: &mut [u32],
) -> Written
    requires { Fits durations.now users.now groups.now list.now head (kind_of list.now c.kind)
        × Room v (constraint_part durations.now users.now groups.now head (kind_of list.now c.kind) c.weight v) × (length store.old ≡ 34816) }
    ensures { Wrote (step job model.now) v
        (constraint_part durations.now users.now groups.now head (kind_of list.now c.kind) c.weight v)
        (world s text.old words.old) (world result.sink text.new words.new) result.next }
{
    let kind = c.kind;
    let b = constraint::bounds_of(kind);
    let n = lists(kind, head.times);
    let mut sink = s;
    let mut next = v;
    for t in 0..n {
        let f = fill(
            kind,
            t + 1,
            head,
            durations,
            users,
            groups,
            list,
            next,
            store,
        );
        let w = write_list(
            job, model, text, words, sink, store, f.nodes, f.at, f.end, c.weight, b, next,
        );
        sink = w.sink;
        next = w.next;
    }
    Written { sink, next }
}
