// Kind 9: an event has from lo to hi subevents of a length.
ghost use Rattle.std.specs.Prelude.{◌≡◌, List, ℕ};
ghost use Rattle.scope.specs.Kinds.{distribute};
ghost use Rattle.constraint.specs.Answers.{kind_of};

use crate::kinds::Kind;
use fields::Flat;

#[derive(Clone, Copy)]
pub struct Distribute {
    pub event: u32,
    pub length: u32,
    pub lo: u32,
    pub hi: u32,
}

// Its fields, in the order in which they were read.
pub fn distribute_of(w: Flat) -> Kind
    ensures { (l : List ℕ) → kind_of l result ≡ distribute w.a w.b w.c w.d }
{
    Kind::Distribute(Distribute {
        event: w.a,
        length: w.b,
        lo: w.c,
        hi: w.d,
    })
}
