// The length of a row's text by arithmetic, where the numbers of each row have equally many digits.
#![tactic(auto)]

ghost use Rattle.std.specs.Prelude.{IfSome, ◌≡◌, ◌+◌, ◌≤◌, ◌<◌, length};
ghost use Rattle.scope.specs.Cnf.{opp};
ghost use Rattle.scope.specs.Formula.{row};
ghost use Rattle.scope.specs.Text.{literal_text};
ghost use Rattle.sink.specs.Lines.{gates_clauses};
ghost use Rattle.sink.specs.World.{row_over};
ghost use Rattle.sink.specs.Meaning.{hard_text};
ghost use Rattle.row_words.specs.Literals.{Literal};
ghost use Rattle.row_size.specs.Digits.{Even};

// How many digits each of the n numbers from v on has, where they have equally many.
fn even_digits(v: u32, n: u32) -> Option<usize>
    requires { (1 ≤ n) × (v + n ≤ 1073741824) }
    ensures { IfSome result (λ k. Even k v n) }
{
    let k = digits::number_size(v as u64);
    if digits::number_size((v + (n - 1)) as u64) == k {
        return Some(k);
    }
    None
}

// The length of a literal and its opposite.
fn both_size(x: u32) -> usize
    requires { x < 2147483648 }
    ensures { (result ≡ length (literal_text x) + length (literal_text (opp x))) × (result ≤ 24) }
{
    digits::literal_size(x) + digits::literal_size(row_words::opposite(x))
}

// The length of the lines of the row at first over the row at prev, for a literal of a weight, where it is found so.
pub fn row_size(top: u64, x: u32, w: u32, prev: u32, first: u32, cols: u32) -> Option<usize>
    requires { Literal x × (1 ≤ first) × (first + cols ≤ 1073741824) × (prev + cols ≤ 1073741824) }
    ensures { IfSome result (λ n. n ≡ length (hard_text top (gates_clauses first (row (row_over prev) w x 1 cols)))) }
{
    if w != 1 || prev == 0 || cols == 0 {
        return None;
    }
    let a = even_digits(prev, cols)?;
    let c = even_digits(first, cols)?;
    let beside = digits::number_size(top) + 3;
    let both = both_size(x);
    let low = 3 * beside + both + 2 * a + 3 * c + 7;
    let full = 4 * beside + both + 5 * a + 4 * c + 13;
    Some(low + (cols as usize - 1) * full)
}
