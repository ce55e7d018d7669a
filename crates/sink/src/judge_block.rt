// The truth of a block in a model.
ghost use Rattle.std.specs.Prelude.{◌≡◌, true, ◌||◌};
ghost use Rattle.scope.specs.Cnf.{bit, lit};
ghost use Rattle.sink.specs.Block.{by_word, by_words};
ghost use Rattle.sink.specs.World.{bad_after};
ghost use Rattle.sink.specs.Parts.{judge_parts};

use super::judge::literal_true;
use super::{Judgement, LAST};

// The lowest false clause so far, or 0, after a clause with its truth and id.
fn bad_after(holds: bool, id: usize, bad: usize) -> usize
    ensures { result ≡ bad_after holds id bad }
{
    if bad == 0 {
        if holds {
            return 0;
        }
        return id;
    }
    bad
}

// Whether the present clause holds, after one more of its literals. The literal is looked at either way, so nothing branches on
// the model.
fn holds_after(model: &[u8], holds: bool, l: u32) -> bool
    ensures { result ≡ (holds || lit (bit model.now) l) }
{
    let t = literal_true(model, l);
    if holds {
        return true;
    }
    t
}

// A word of a block.
fn judge_word(model: &[u8], j: Judgement, w: u32) -> Judgement
    ensures { result ≡ by_word (judge_parts model.now) true w j }
{
    let holds = holds_after(model, j.holds, w % LAST);
    if w < LAST {
        return Judgement { holds, ..j };
    }
    let at = digits::advance(j.at, 1);
    Judgement {
        at,
        bad: bad_after(holds, at, j.bad),
        holds: false,
    }
}

// The clauses of a block. The loop keeps three numbers, not the struct, whose unused bytes would be copied at each word.
pub fn judge_block(model: &[u8], j: Judgement, block: &[u32]) -> Judgement
    ensures { result ≡ by_words (judge_parts model.now) true block.now j }
{
    let mut at = j.at;
    let mut bad = j.bad;
    let mut holds = j.holds;
    for w in block {
        let k = judge_word(model, Judgement { at, bad, holds }, *w);
        at = k.at;
        bad = k.bad;
        holds = k.holds;
    }
    Judgement { at, bad, holds }
}
