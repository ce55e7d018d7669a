// The nodes at the start of a store.
ghost use Rattle.std.specs.Prelude.{map};
ghost use Rattle.sink.specs.Run.{Ran};
ghost use Rattle.sink.specs.Lines.{clause_line};
ghost use Rattle.sink.specs.World.{world, step};
ghost use Rattle.list_clauses.specs.Stored.{StoreNodes, store_clauses};

use sink::{Job, Sink};

// Each is a word that counts its inputs, and its long clause, which has one word more.
pub fn write_nodes(
    job: Job,
    model: &[u8],
    text: &mut [u8],
    words: &mut [u32],
    s: Sink,
    store: &[u32],
    count: usize,
) -> Sink
    requires { StoreNodes count store.now }
    ensures { Ran (step job model.now) (map clause_line (store_clauses count store.now))
        (world s text.old words.old) (world result text.new words.new) }
{
    if sink::skips(job) {
        return s;
    }
    let mut z = s;
    let mut at = 0;
    for i in 0..count {
        let first = at + 1;
        let end = first + store[at] as usize + 1;
        z = node_clauses::write_node(job, model, text, words, z, &store[first..end]);
        at = end;
    }
    z
}
