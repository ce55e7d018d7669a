// Kind 2: a resource is not used at the times of a group.
ghost use Rattle.std.specs.Prelude.{◌≡◌, List, ℕ};
ghost use Rattle.scope.specs.Kinds.{unavailable};
ghost use Rattle.constraint.specs.Answers.{kind_of};

use crate::kinds::Kind;
use fields::Flat;

#[derive(Clone, Copy)]
pub struct Unavailable {
    pub resource: u32,
    pub group: u32,
}

// Its fields, in the order in which they were read.
pub fn unavailable_of(w: Flat) -> Kind
    ensures { (l : List ℕ) → kind_of l result ≡ unavailable w.c w.d }
{
    Kind::Unavailable(Unavailable {
        resource: w.c,
        group: w.d,
    })
}
