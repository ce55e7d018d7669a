// The directory of a formula is built of its words, where each clause's last word is marked.
#![tactic(auto)]

ghost use Rattle.std.specs.Prelude.{◌≡◌, ◌++◌, ◌+◌, ◌≤◌, ◌<◌, length, take, drop};
ghost use Rattle.std.proofs.Math.Seq.{slice};
ghost use Rattle.std.proofs.lemmas.List.Edits.{sets};
ghost use Rattle.building.specs.Marked.{flat, parted, first_clause, rows_for, row_between};

use directory::{Row, append};

// What a clause's last word is marked by.
const MARK: u32 = 2147483648;

// The words from first on are passed up to one that is marked, whose mark is taken off. Where what follows it stands.
fn unmark(words: &mut [u32], first: usize, end: usize) -> usize
    requires { (first ≤ end) × (end ≤ length words.old) }
    ensures value { result ≡ first + length (first_clause (slice first end words.old)) }
    ensures words_after { words.new ≡ take first words.old ++ (first_clause (slice first end words.old) ++ drop result words.old) }
{
    for i in first..end {
        let w = words[i];
        if MARK <= w {
            words[i] = w - MARK;
            return i + 1;
        }
    }
    end
}

// The row of the clause that comes after n others, in the words from first to next.
fn row_between(n: usize, first: usize, next: usize) -> Row
    requires { (n ≤ first) × (first < next) }
    ensures { result ≡ row_between n first next }
{
    Row::new(n + 1, first, next - first)
}

// The rows of the clauses in the first total words, where each clause's last word is marked by 2^31; the words are then as
// they were before they were marked. The clauses have the ids 1, 2, .. in turn. How many they are.
pub fn build_directory(words: &mut [u32], rows: &mut [Row], total: usize) -> usize
    ensures value { result ≡ length (parted (take total words.old)) }
    ensures words_after { words.new ≡ flat (parted (take total words.old)) ++ drop total words.old }
    ensures rows_after { rows.new ≡ sets rows.old 0 (rows_for 1 0 (parted (take total words.old))) }
{
    let end = total.min(words.len());
    let mut n = 0;
    let mut first = 0;
    while first < end {
        let next = unmark(words, first, end);
        append(rows, n, row_between(n, first, next));
        n += 1;
        first = next;
    }
    n
}
