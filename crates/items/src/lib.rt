// Items that a writer ran, and the writer of a counted list by its bounds as written.
#![tactic(auto)]

ghost use Rattle.std.specs.Prelude.{◌≡◌, ◌+◌, ◌-◌, ◌*◌, ◌≤◌, ◌<◌, length};
ghost use Rattle.scope.specs.Formula.{columns as columns_of};
ghost use Rattle.sink.specs.World.{world, step};
ghost use Rattle.counters.specs.Literals.{Literals};
ghost use Rattle.items.specs.Written.{Room, Wrote};
ghost use Rattle.items.specs.Counted.{counted, shorts as shorts_of};

use constraint::Bounds;
use sink::{Job, Sink};

// A sink, and the variable after those of the items that were written.
#[derive(Clone, Copy)]
pub struct Written {
    pub sink: Sink,
    pub next: u32,
}

// How many columns the counter of n literals has.
fn columns(weight: u32, hi: u32, n: u32) -> u32
    ensures { result ≡ columns_of weight hi n }
{
    if weight == 0 && hi < n { hi + 1 } else { n }
}

// How many variables kind 6's low part has.
fn shorts(free: bool, lo: u32) -> u32
    ensures { result ≡ shorts_of free lo }
{
    if free { lo.saturating_sub(1) } else { 0 }
}

// A counted list, from the variable v on; hi is lowered to its length.
pub fn write_counted(
    job: Job,
    model: &[u8],
    text: &mut [u8],
    words: &mut [u32],
    s: Sink,
    lits: &[u32],
    weight: u32,
    b: Bounds,
    v: u32,
) -> Written
    requires { Literals lits.now × ((length lits.now ≤ 255) × ((b.lo ≤ length lits.now) × Room v (counted weight b lits.now v))) }
    ensures { Wrote (step job model.now) v (counted weight b lits.now v)
        (world s text.old words.old) (world result.sink text.new words.new) result.next }
{
    let n = lits.len() as u32;
    let hi = b.hi.min(n);
    let low = Bounds {
        lo: b.lo,
        hi,
        free: b.free,
    };
    let cols = columns(weight, hi, n);
    let sink = counts::write_count(job, model, text, words, s, lits, v, cols, weight, low);
    let next = v + n * cols + shorts(b.free, b.lo);
    Written { sink, next }
}
