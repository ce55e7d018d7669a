// Nodes: an OR or an AND by its long clause, the last of its clauses.
ghost use Rattle.std.specs.Prelude.{◌≡◌, map, ◌-◌, ◌*◌, ◌≤◌, length, take};
ghost use Rattle.scope.specs.Cnf.{opp, pairs};
ghost use Rattle.sink.specs.Run.{Ran};
ghost use Rattle.sink.specs.Lines.{clause_line};
ghost use Rattle.sink.specs.Block.{split};
ghost use Rattle.sink.specs.World.{world, step};
ghost use Rattle.counters.specs.Literals.{Literals};
ghost use Rattle.node_clauses.specs.Pairs.{pair_words};
ghost use Rattle.node_clauses.specs.LongClauses.{LongClause, node_clauses};

use super::evaluate::node_right;
use node_text::{fits, long_text, pairs_text};
use sink::{Job, LAST, Mode, Sink};

// The clauses (opposite of l, p) for some literals l, where last is p marked.
fn pair_words(block: &mut [u32], lits: &[u32], last: u32)
    requires { Literals lits.now × (2 * length lits.now ≤ length block.old) }
    ensures { take (2 * length lits.now) block.new ≡ pair_words last lits.now }
{
    // two words for each literal, so the place is counted
    for i in 0..lits.len() {
        let at = 2 * i;
        block[at] = row_words::opposite(lits[i]);
        block[at + 1] = last;
    }
}

// The same for any number of literals, 32 in a block.
fn write_pair_blocks(
    job: Job,
    model: &[u8],
    text: &mut [u8],
    words: &mut [u32],
    s: Sink,
    lits: &[u32],
    last: u32,
) -> Sink
    requires { Literals lits.now × (2147483648 ≤ last) }
    ensures { Ran (step job model.now) (map clause_line (pairs (map opp lits.now) (last - 2147483648)))
        (world s text.old words.old) (world result text.new words.new) }
{
    // of fixed size: there is no heap
    let mut block = [0u32; 64];
    let mut z = s;
    let mut i = 0;
    while i < lits.len() {
        let e = lits.len().min(i + 32);
        pair_words(&mut block, &lits[i..e], last);
        let n = 2 * (e - i);
        z = sink::emit(job, model, text, words, z, &block[..n]);
        i = e;
    }
    z
}

// The same; a text of them is written at once where that is possible.
fn write_pairs(
    job: Job,
    model: &[u8],
    text: &mut [u8],
    words: &mut [u32],
    s: Sink,
    lits: &[u32],
    last: u32,
) -> Sink
    requires { Literals lits.now × (2147483648 ≤ last) }
    ensures { Ran (step job model.now) (map clause_line (pairs (map opp lits.now) (last - 2147483648)))
        (world s text.old words.old) (world result text.new words.new) }
{
    let at = s.at;
    let q = last - LAST;
    if job.mode == Mode::Text && fits(text.len(), at, job.top, lits, q) {
        return sink::placed(s, pairs_text(text, at, job.top as u32, lits, q));
    }
    write_pair_blocks(job, model, text, words, s, lits, last)
}

// The long clause; a text of it is written at once where that is possible.
fn write_long(
    job: Job,
    model: &[u8],
    text: &mut [u8],
    words: &mut [u32],
    s: Sink,
    clause: &[u32],
) -> Sink
    requires { LongClause clause.now }
    ensures { Ran (step job model.now) (map clause_line (split clause.now))
        (world s text.old words.old) (world result text.new words.new) }
{
    let at = s.at;
    let n = clause.len() - 1;
    let q = clause[n] - LAST;
    if job.mode == Mode::Text && fits(text.len(), at, job.top, &clause[..n], q) {
        return sink::placed(s, long_text(text, at, job.top as u32, &clause[..n], q));
    }
    sink::emit(job, model, text, words, s, clause)
}

// The clauses of a node by its long clause.
pub fn write_node(
    job: Job,
    model: &[u8],
    text: &mut [u8],
    words: &mut [u32],
    s: Sink,
    clause: &[u32],
) -> Sink
    requires { LongClause clause.now }
    ensures { Ran (step job model.now) (map clause_line (node_clauses clause.now))
        (world s text.old words.old) (world result text.new words.new) }
{
    if sink::skips(job) {
        return s;
    }
    let n = clause.len() - 1;
    let q = clause[n] - LAST;
    if sink::evaluates(job) && node_right(model, &clause[..n], q) {
        return sink::passed(s, n + 1);
    }
    let last = row_words::opposite(q) + LAST;
    let z = write_pairs(job, model, text, words, s, &clause[..n], last);
    write_long(job, model, text, words, z, clause)
}
