// Kind 4: an event has from lo to hi starts.
ghost use Rattle.std.specs.Prelude.{◌≡◌, List, ℕ};
ghost use Rattle.scope.specs.Kinds.{split};
ghost use Rattle.constraint.specs.Answers.{kind_of};

use crate::kinds::Kind;
use fields::Flat;

#[derive(Clone, Copy)]
pub struct Split {
    pub event: u32,
    pub lo: u32,
    pub hi: u32,
}

// Its fields, in the order in which they were read.
pub fn split_of(w: Flat) -> Kind
    ensures { (l : List ℕ) → kind_of l result ≡ split w.b w.c w.d }
{
    Kind::Split(Split {
        event: w.b,
        lo: w.c,
        hi: w.d,
    })
}
