// Kind 5: some events have from lo to hi starts in a group.
ghost use Rattle.std.specs.Prelude.{◌≡◌, List, ℕ};
ghost use Rattle.scope.specs.Kinds.{spread};
ghost use Rattle.number.specs.Lists.{leading};
ghost use Rattle.constraint.specs.Answers.{kind_of};

use crate::kinds::Kind;
use fields::Flat;

#[derive(Clone, Copy)]
pub struct Spread {
    pub events: u32,
    pub group: u32,
    pub lo: u32,
    pub hi: u32,
}

// Its fields, in the order in which they were read.
pub fn spread_of(w: Flat) -> Kind
    ensures { (l : List ℕ) → kind_of l result ≡ spread (leading w.list l) w.b w.c w.d }
{
    Kind::Spread(Spread {
        events: w.list,
        group: w.b,
        lo: w.c,
        hi: w.d,
    })
}
