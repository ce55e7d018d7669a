// The kinds of constraint with their fields. A list of events or of groups stands in a store beside, and the field has its
// length. lo and hi are as written.
ghost use Rattle.std.specs.Prelude.{◌≡◌, List, ℕ, false};
ghost use Rattle.constraint.specs.Answers.{kind_of};
ghost use Rattle.constraint.specs.Bounds.{low_of, high_of, free_of};

use crate::busy::Busy;
use crate::clash::Clash;
use crate::distribute::Distribute;
use crate::lengths::Lengths;
use crate::over_groups::OverGroups;
use crate::precedence::Precedence;
use crate::preferred::Preferred;
use crate::split::Split;
use crate::spread::Spread;
use crate::unavailable::Unavailable;

#[derive(Clone, Copy)]
pub enum Kind {
    Clash(Clash),
    Unavailable(Unavailable),
    Preferred(Preferred),
    Split(Split),
    Spread(Spread),
    Busy(Busy),
    Cluster(OverGroups),
    Idle(OverGroups),
    Distribute(Distribute),
    Lengths(Lengths),
    Precedence(Precedence),
}

// The weight 0 means hard.
#[derive(Clone, Copy)]
pub struct Constraint {
    pub weight: u32,
    pub kind: Kind,
}

// What an instance file has before its constraints, and the offset of the first of them.
#[derive(Clone, Copy)]
pub struct Head {
    pub times: u32,
    pub events: u32,
    pub resources: u32,
    pub groups: u32,
    pub constraints: u32,
    pub start: usize,
}

// lo and hi as written, and whether a count of 0 is free of charge.
#[derive(Clone, Copy)]
pub struct Bounds {
    pub lo: u32,
    pub hi: u32,
    pub free: bool,
}

// Of a count that is charged for at 0 too.
fn counted(lo: u32, hi: u32) -> Bounds
    ensures { result ≡ record { lo = lo; hi = hi; free = false } }
{
    Bounds {
        lo,
        hi,
        free: false,
    }
}

// One table for all kinds, as the definitions have it: fixed for the kinds whose count has no lo and hi, kind 11 among them, whose
// bounds are of a gap; in a busy limit a count of 0 is free.
pub fn bounds_of(k: Kind) -> Bounds
    ensures { (l : List ℕ) → result ≡ record { lo = low_of (kind_of l k); hi = high_of (kind_of l k); free = free_of (kind_of l k) } }
{
    match k {
        Kind::Clash(_) => counted(0, 1),
        Kind::Unavailable(_) | Kind::Preferred(_) => counted(0, 0),
        Kind::Split(f) => counted(f.lo, f.hi),
        Kind::Spread(f) => counted(f.lo, f.hi),
        Kind::Busy(f) => {
            let bounds = counted(f.lo, f.hi);
            Bounds {
                free: true,
                ..bounds
            }
        }
        Kind::Cluster(f) | Kind::Idle(f) => counted(f.lo, f.hi),
        Kind::Distribute(f) => counted(f.lo, f.hi),
        Kind::Lengths(_) | Kind::Precedence(_) => counted(0, 0),
    }
}
