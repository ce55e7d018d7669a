// A clause's row is found by its id.
#![tactic(auto)]

ghost use Rattle.std.specs.Prelude.{◌≡◌, ◌≤◌, ◌<◌};
ghost use Rattle.lookup.specs.Lookup.{started, halving, ended, narrowed, look_up};

use directory::Row;

// Where a search stands: the row is in lo..hi if it is anywhere, at is looked at next, and hit is the row once it is met. The
// first look is a guess from the id.
#[derive(Clone, Copy)]
pub struct Probe {
    pub lo: usize,
    pub hi: usize,
    pub at: usize,
    pub hit: Row,
    pub guess: bool,
}

// A search for an id in n rows: the first look is at row id - 1, which has the id where no id was left out, or at the last.
fn start(n: usize, id: usize) -> Probe
    ensures { result ≡ started n id }
{
    Probe {
        lo: 0,
        hi: n,
        at: n.min(id).saturating_sub(1),
        hit: Row::none(),
        guess: true,
    }
}

// A search of lo..hi, whose next look is in the middle.
fn halve(lo: usize, hi: usize, hit: Row) -> Probe
    requires { lo ≤ hi }
    ensures { result ≡ halving lo hi hit }
{
    let at = lo + (hi - lo) / 2;
    Probe {
        lo,
        hi,
        at,
        hit,
        guess: false,
    }
}

// The search has ended, with the row that is met or with none.
fn end(s: Probe, hit: Row) -> Probe
    ensures { result ≡ ended s hit }
{
    Probe {
        lo: s.hi,
        hi: s.hi,
        at: s.at,
        hit,
        guess: false,
    }
}

// The search after a look at a row. A guess that fails narrows nothing: the searches for all ids then halve the same rows, which the
// cache holds. Ids are compared for being the same at the last look alone, so that the next look can begin before this one is over.
#[tactic(auto, unfolding(crate::specs::Lookup::narrowed))]
fn narrow(s: Probe, row: Row, id: usize) -> Probe
    requires { (s.lo ≤ s.at) × (s.at < s.hi) }
    ensures { result ≡ narrowed s row id }
{
    let seen = row.id();
    let hit = s.hit;
    if s.guess {
        if seen == id {
            return end(s, row);
        }
        return halve(s.lo, s.hi, hit);
    }
    if s.hi - s.lo < 2 {
        if seen == id {
            return end(s, row);
        }
        return end(s, hit);
    }
    if seen <= id {
        return halve(s.at, s.hi, hit);
    }
    halve(s.lo, s.at, hit)
}

// The row with an id among the first n, whose ids ascend; where there is none, the row that is found is not live.
// By hand, since it was measured: the library's search has no guess, and compares for being the same at each look.
pub fn find(rows: &[Row], n: usize, id: usize) -> Probe
    ensures { result ≡ look_up rows.now n id }
{
    let mut s = start(n.min(rows.len()), id);
    while s.lo < s.hi {
        let row = rows[s.at];
        s = narrow(s, row, id);
    }
    s
}
