// The loop that drives a check. It lends the directory: to look up the ids that the machine wants, to delete ids, and to append the
// clauses that are kept.
ghost use Rattle.std.specs.Prelude.{◌≡◌};
ghost use Rattle.run.specs.Turned.{outcome, driven_with, driven_by};

use crate::deleting::delete_ids;
use directory::{Row, append};
use hints::machine::{Machine, Phase, Turn, advance, stop, turn_of};
use lookup::find;
use phases::next::{answer, enter, proceed};
use reader::Reader;
use scope::Refusal;
use taking::step::next_step;
use turns::check::{begin, judge, keep, row_of};
use unwinding::opening::unwind;

// The proof is judged turn by turn, with some trail, and read through one reader, which each turn moves to where the machine stands.
fn drive_with(
    proof: &[u8],
    words: &mut [u32],
    rows: &mut [Row],
    marks: &mut [u8],
    trail: &mut [u32],
    last: usize,
    n: usize,
    used: usize,
) -> Result<u64, Refusal>
    ensures { outcome result rows.new words.new marks.new
        ≡ driven_with proof.now last n used rows.old words.old marks.old trail.old }
{
    let mut c = begin(n, used);
    let mut m = stop(Phase::Next, 0);
    let mut r = Reader::new(proof, 0);
    loop {
        r = r.moved(m.at);
        match turn_of(m) {
            Turn::Look => {
                let p = find(rows, c.tally.rows, m.want);
                m = advance(m, p.hit, r.number(), words, marks, trail);
            }
            Turn::Delete => m = delete_ids(m, proof, rows, c.tally.rows),
            Turn::Keep => {
                append(rows, c.tally.rows, row_of(c));
                c = keep(c, proof, words);
                m = unwind(c, m, words, marks, trail);
            }
            Turn::Judge => {
                c = judge(c, m.at, proof.len(), words.len(), rows.len());
                m = proceed(c, m);
            }
            Turn::Read => {
                c = next_step(c, m.at, proof, last, marks);
                m = enter(c, proof);
            }
            Turn::End => return answer(c, m),
        }
    }
}

// The proof is judged, where the stores hold a formula of n clauses and used words: its clauses are the first n rows and have
// the ids 1 to n. Its variables go up to the last; their marks are open.
pub fn drive(
    proof: &[u8],
    words: &mut [u32],
    rows: &mut [Row],
    marks: &mut [u8],
    last: usize,
    n: usize,
    used: usize,
) -> Result<u64, Refusal>
    ensures { outcome result rows.new words.new marks.new
        ≡ driven_by proof.now last n used rows.old words.old marks.old }
{
    // of fixed size: there is no heap
    let mut trail = [0u32; 32768];
    drive_with(proof, words, rows, marks, &mut trail, last, n, used)
}
