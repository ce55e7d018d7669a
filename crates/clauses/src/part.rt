// A constraint as a part of the formula.
ghost use Rattle.std.specs.Prelude.{◌≡◌, ◌≤◌, length};
ghost use Rattle.constraint.specs.Answers.{kind_of};
ghost use Rattle.sink.specs.World.{world, step};
ghost use Rattle.sink.specs.Lend.{part_base, Before};
ghost use Rattle.items.specs.Written.{Room, Wrote};
ghost use Rattle.clauses.specs.Fits.{Fits, constraint_part};

use crate::lists::write_lists;
use constraint::{Constraint, Head};
use items::Written;
use sink::{Job, Sink};

// Its writer is lent the outputs from its own start on, and what stands before it is as it was; store takes one list at a time.
pub fn write_constraint(
    job: Job,
    model: &[u8],
    text: &mut [u8],
    words: &mut [u32],
    s: Sink,
    c: Constraint,
    head: Head,
    durations: &[u8],
    users: &[u16],
    groups: &[u8],
    list: &[u16],
    v: u32,
    store: &mut [u32],
) -> Written
    requires fits { Fits durations.now users.now groups.now list.now head (kind_of list.now c.kind)
        × Room v (constraint_part durations.now users.now groups.now head (kind_of list.now c.kind) c.weight v) }
    requires at_bound { (s.at ≤ 9223372036854775807) × (length store.old ≡ 34816) }
    ensures wrote { Wrote (step job model.now) v
        (constraint_part durations.now users.now groups.now head (kind_of list.now c.kind) c.weight v)
        (world s text.old words.old) (world result.sink text.new words.new) result.next }
    ensures before { Before (part_base job.mode s.at) text.old text.new
        × Before (part_base job.mode s.at) words.old words.new }
{
    let base = sink::part_base(job, s);
    let t = base.min(text.len());
    let w = base.min(words.len());
    let z = sink::placed(s, s.at - base);
    let r = write_lists(
        job,
        model,
        &mut text[t..],
        &mut words[w..],
        z,
        c,
        head,
        durations,
        users,
        groups,
        list,
        v,
        store,
    );
    let y = r.sink;
    let next = r.next;
    let last = sink::placed(y, digits::advance(base, y.at));
    Written { sink: last, next }
}
