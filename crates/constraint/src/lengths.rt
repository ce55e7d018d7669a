// Kind 10: an event has no subevent shorter than the shortest length or longer than the longest.
ghost use Rattle.std.specs.Prelude.{◌≡◌, List, ℕ};
ghost use Rattle.scope.specs.Kinds.{lengths};
ghost use Rattle.constraint.specs.Answers.{kind_of};

use crate::kinds::Kind;
use fields::Flat;

#[derive(Clone, Copy)]
pub struct Lengths {
    pub event: u32,
    pub shortest: u32,
    pub longest: u32,
}

// Its fields, in the order in which they were read.
pub fn lengths_of(w: Flat) -> Kind
    ensures { (l : List ℕ) → kind_of l result ≡ lengths w.b w.c w.d }
{
    Kind::Lengths(Lengths {
        event: w.b,
        shortest: w.c,
        longest: w.d,
    })
}
