// Kind 1: a resource is used at most once at each time.
ghost use Rattle.std.specs.Prelude.{◌≡◌, List, ℕ};
ghost use Rattle.scope.specs.Kinds.{clash};
ghost use Rattle.constraint.specs.Answers.{kind_of};

use crate::kinds::Kind;
use fields::Flat;

#[derive(Clone, Copy)]
pub struct Clash {
    pub resource: u32,
}

// Its fields, in the order in which they were read.
pub fn clash_of(w: Flat) -> Kind
    ensures { (l : List ℕ) → kind_of l result ≡ clash w.d }
{
    Kind::Clash(Clash { resource: w.d })
}
