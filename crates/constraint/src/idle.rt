// Kind 8: a resource has from lo to hi idle times in the groups of a list.
ghost use Rattle.std.specs.Prelude.{◌≡◌, List, ℕ};
ghost use Rattle.scope.specs.Kinds.{idle};
ghost use Rattle.number.specs.Lists.{leading};
ghost use Rattle.constraint.specs.Answers.{kind_of};

use crate::kinds::Kind;
use crate::over_groups::OverGroups;
use fields::Flat;

// Its fields, in the order in which they were read.
pub fn idle_of(w: Flat) -> Kind
    ensures { (l : List ℕ) → kind_of l result ≡ idle w.b (leading w.list l) w.c w.d }
{
    Kind::Idle(OverGroups {
        resource: w.b,
        groups: w.list,
        lo: w.c,
        hi: w.d,
    })
}
