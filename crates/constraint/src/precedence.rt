// Kind 11: between the last time of an event and the first time of another lie lo to hi times.
ghost use Rattle.std.specs.Prelude.{◌≡◌, List, ℕ};
ghost use Rattle.scope.specs.Kinds.{precedence};
ghost use Rattle.constraint.specs.Answers.{kind_of};

use crate::kinds::Kind;
use fields::Flat;

#[derive(Clone, Copy)]
pub struct Precedence {
    pub first: u32,
    pub second: u32,
    pub lo: u32,
    pub hi: u32,
}

// Its fields, in the order in which they were read.
pub fn precedence_of(w: Flat) -> Kind
    ensures { (l : List ℕ) → kind_of l result ≡ precedence w.a w.b w.c w.d }
{
    Kind::Precedence(Precedence {
        first: w.a,
        second: w.b,
        lo: w.c,
        hi: w.d,
    })
}
