// The loop that deletes the ids of a step: each is looked up, and its row is marked dead.
ghost use Rattle.std.specs.Prelude.{◌≡◌};
ghost use Rattle.run.specs.Turned.{deletion, ids_deleted};

use deletion::ids::pass_id;
use directory::{Row, mark_dead};
use hints::machine::{Machine, Turn, turn_of};
use lookup::find;
use reader::Reader;

// The machine's turns go on until it has no id to delete; the reader stands where the machine does.
pub fn delete_ids(m: Machine, proof: &[u8], rows: &mut [Row], n: usize) -> Machine
    ensures { deletion result rows.new ≡ ids_deleted proof.now n m rows.old }
{
    let mut d = m;
    let mut r = Reader::new(proof, m.at);
    while turn_of(d) == Turn::Delete {
        let p = find(rows, n, d.want);
        mark_dead(rows, p.at);
        d = pass_id(d, p.hit, r.number());
        r = r.moved(d.at);
    }
    d
}
