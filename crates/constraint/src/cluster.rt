// Kind 7: a resource is used in lo to hi groups of a list.
ghost use Rattle.std.specs.Prelude.{◌≡◌, List, ℕ};
ghost use Rattle.scope.specs.Kinds.{cluster};
ghost use Rattle.number.specs.Lists.{leading};
ghost use Rattle.constraint.specs.Answers.{kind_of};

use crate::kinds::Kind;
use crate::over_groups::OverGroups;
use fields::Flat;

// Its fields, in the order in which they were read.
pub fn cluster_of(w: Flat) -> Kind
    ensures { (l : List ℕ) → kind_of l result ≡ cluster w.b (leading w.list l) w.c w.d }
{
    Kind::Cluster(OverGroups {
        resource: w.b,
        groups: w.list,
        lo: w.c,
        hi: w.d,
    })
}
