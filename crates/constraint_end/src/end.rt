// What the checks at a constraint's end look at besides its list: what is wrong with its fields, if anything, and the count's lo
// and hi as written, fixed for the kinds without them.
ghost use Rattle.std.specs.Prelude.{◌≡◌, List, ℕ};
ghost use Rattle.fields.specs.Kind.{number_of};
ghost use Rattle.fields.specs.Made.{kind_from};
ghost use Rattle.constraint_end.specs.End.{end_of};

use crate::fault::fault_of;
use fields::{Flat, KindName};
use scope::Reason;

#[derive(Clone, Copy)]
pub struct End {
    pub fault: Option<Reason>,
    pub lo: u32,
    pub hi: u32,
}

// One table for all kinds.
#[tactic(auto, unfolding(fields::specs::Made::kind_from))]
pub fn end_of(kind: KindName, w: Flat) -> End
    ensures { (l : List ℕ) → result ≡ end_of (kind_from (number_of kind) w l) }
{
    match kind {
        KindName::Clash => End {
            fault: None,
            lo: 0,
            hi: 1,
        },
        KindName::Unavailable | KindName::Preferred => End {
            fault: None,
            lo: 0,
            hi: 0,
        },
        KindName::Split
        | KindName::Spread
        | KindName::Busy
        | KindName::Cluster
        | KindName::Idle
        | KindName::Distribute => End {
            fault: None,
            lo: w.c,
            hi: w.d,
        },
        KindName::Lengths | KindName::Precedence => End {
            fault: fault_of(kind, w),
            lo: 0,
            hi: 0,
        },
    }
}
