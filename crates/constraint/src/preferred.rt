// Kind 3: an event takes place at the times of a group.
ghost use Rattle.std.specs.Prelude.{◌≡◌, List, ℕ};
ghost use Rattle.scope.specs.Kinds.{preferred};
ghost use Rattle.constraint.specs.Answers.{kind_of};

use crate::kinds::Kind;
use fields::Flat;

#[derive(Clone, Copy)]
pub struct Preferred {
    pub event: u32,
    pub group: u32,
}

// Its fields, in the order in which they were read.
pub fn preferred_of(w: Flat) -> Kind
    ensures { (l : List ℕ) → kind_of l result ≡ preferred w.c w.d }
{
    Kind::Preferred(Preferred {
        event: w.c,
        group: w.d,
    })
}
