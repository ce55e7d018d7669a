// Kind 6: a resource is used at none or at lo to hi times of a group.
ghost use Rattle.std.specs.Prelude.{◌≡◌, List, ℕ};
ghost use Rattle.scope.specs.Kinds.{busy};
ghost use Rattle.constraint.specs.Answers.{kind_of};

use crate::kinds::Kind;
use fields::Flat;

#[derive(Clone, Copy)]
pub struct Busy {
    pub resource: u32,
    pub group: u32,
    pub lo: u32,
    pub hi: u32,
}

// Its fields, in the order in which they were read.
pub fn busy_of(w: Flat) -> Kind
    ensures { (l : List ℕ) → kind_of l result ≡ busy w.a w.b w.c w.d }
{
    Kind::Busy(Busy {
        resource: w.a,
        group: w.b,
        lo: w.c,
        hi: w.d,
    })
}
