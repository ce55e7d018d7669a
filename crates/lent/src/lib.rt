// Whether lent stores are long enough for a formula.
#![tactic(auto)]

ghost use Rattle.std.specs.Prelude.{◌≡◌};
ghost use Rattle.lent.specs.Room.{lent, size_fits};

use scope::FormulaSize;

// Whether the stores are long enough.
pub fn fits(z: FormulaSize, words: usize, rows: usize, bytes: usize) -> bool
    ensures { result ≡ size_fits z (lent words rows bytes) }
{
    z.words <= words as u64 && z.clauses <= rows as u64 && z.variables <= bytes as u64
}
