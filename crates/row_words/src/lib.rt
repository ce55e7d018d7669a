// The cells of counters: their clauses as words, one cell and a whole row.
#![tactic(auto)]

ghost use Rattle.std.specs.Prelude.{◌≡◌, ◌<◌};
ghost use Rattle.scope.specs.Cnf.{opp};

mod cell;
mod row;

pub use cell::cell_words;
pub use row::row_words;

// The opposite literal.
pub fn opposite(l: u32) -> u32
    requires { l < 2147483648 }
    ensures { result ≡ opp l }
{
    l + 1 - 2 * (l % 2)
}
