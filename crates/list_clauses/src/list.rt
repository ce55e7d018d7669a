// The nodes of a list, and its members counted.
ghost use Rattle.std.specs.Prelude.{◌≡◌, List, ◌++◌, map, ◌+◌, length};
ghost use Rattle.scope.specs.Cnf.{Gate, gate};
ghost use Rattle.sink.specs.World.{world, step};
ghost use Rattle.items.specs.Written.{Wrote};
ghost use Rattle.items.specs.Counted.{counted};
ghost use Rattle.list_clauses.specs.Stored.{ListStored, members};
ghost use Rattle.list_clauses.specs.Filled.{Stored};

use constraint::Bounds;
use items::Written;
use sink::{Job, Sink};

// The members stand in the store from a place on, up to an end; the first node's output is the variable v.
pub fn write_list(
    job: Job,
    model: &[u8],
    text: &mut [u8],
    words: &mut [u32],
    s: Sink,
    store: &[u32],
    nodes: usize,
    at: usize,
    end: usize,
    weight: u32,
    b: Bounds,
    v: u32,
) -> Written
    requires { ListStored store.now nodes at end weight b v }
    ensures { (gs : List Gate) → Stored v gs store.now → nodes ≡ length gs
        → Wrote (step job model.now) v (map gate gs ++ counted weight b (members store.now at end) (v + nodes))
        (world s text.old words.old) (world result.sink text.new words.new) result.next }
{
    let z = super::nodes::write_nodes(job, model, text, words, s, store, nodes);
    let next = v + nodes as u32;
    items::write_counted(job, model, text, words, z, &store[at..end], weight, b, next)
}
