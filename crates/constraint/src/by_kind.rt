// The kind that all its fields make, by its name.
ghost use Rattle.std.specs.Prelude.{◌≡◌, List, ℕ};
ghost use Rattle.number.specs.Lists.{leading};
ghost use Rattle.fields.specs.Kind.{number_of};
ghost use Rattle.fields.specs.Made.{kind_from};
ghost use Rattle.constraint.specs.Answers.{kind_of};

use crate::busy::busy_of;
use crate::clash::clash_of;
use crate::cluster::cluster_of;
use crate::distribute::distribute_of;
use crate::idle::idle_of;
use crate::kinds::Kind;
use crate::lengths::lengths_of;
use crate::precedence::precedence_of;
use crate::preferred::preferred_of;
use crate::split::split_of;
use crate::spread::spread_of;
use crate::unavailable::unavailable_of;
use fields::{Flat, KindName};

#[tactic(auto, unfolding(fields::specs::Made::kind_from))]
pub fn kind_of(kind: KindName, w: Flat) -> Kind
    ensures { (l : List ℕ) → kind_of l result ≡ kind_from (number_of kind) w (leading w.list l) }
{
    match kind {
        KindName::Clash => clash_of(w),
        KindName::Unavailable => unavailable_of(w),
        KindName::Preferred => preferred_of(w),
        KindName::Split => split_of(w),
        KindName::Spread => spread_of(w),
        KindName::Busy => busy_of(w),
        KindName::Cluster => cluster_of(w),
        KindName::Idle => idle_of(w),
        KindName::Distribute => distribute_of(w),
        KindName::Lengths => lengths_of(w),
        KindName::Precedence => precedence_of(w),
    }
}
