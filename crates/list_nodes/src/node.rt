// Nodes, stored after `at` words that stay: a head word with the number of inputs, then the long clause, its last word marked.
ghost use Rattle.std.specs.Prelude.{◌≡◌, ◌++◌, ◌∷◌, [], map, ◌+◌, ◌-◌, ◌≤◌, ◌<◌, length, take, drop};
ghost use Rattle.scope.specs.Cnf.{pos, neg, opp, or, and};
ghost use Rattle.tables.specs.Rows.{row_at};
ghost use Rattle.literals.specs.Variables.{literal_at, GroupIn};
ghost use Rattle.literals.specs.Words.{Holds};
ghost use Rattle.literals.specs.NodeWords.{node_words};

use literals::LAST;
use tables::row_len;

// The OR with the output o of the literals of the row after a base at the times of a group.
pub fn store_group(groups: &[u8], g: u32, base: u32, o: u32, at: usize, out: &mut [u32]) -> usize
    requires { GroupIn groups.now g × ((base < 524288) × ((at + 127 ≤ length out.old) × (o < 1073741824))) }
    ensures holds { Holds out.new result (take at out.old ++ node_words (or (map (literal_at base) (row_at groups.now (g - 1)))) o) }
    ensures upper_bound { result ≤ at + 127 }
{
    let row = (g - 1) as usize;
    let n = row_len(groups, row);
    out[at] = n as u32;
    let last = literals::group_times(groups, g, base, at + 1, out);
    out[last] = 2 * o + 1 + LAST;
    last + 1
}

// The words of a row from one place up to another.
pub fn store_words(row: &[u32], from: usize, to: usize, at: usize, out: &mut [u32]) -> usize
    requires { (from ≤ to) × ((to ≤ length row.now) × (at + (to - from) ≤ length out.old)) }
    ensures holds { Holds out.new result (take at out.old ++ drop from (take to row.now)) }
    ensures value { result ≡ at + (to - from) }
{
    let mut n = at;
    // tried with copy_from_slice: the compiler then no longer sees that a store is only written, and clears it first
    for k in from..to {
        out[n] = row[k];
        n += 1;
    }
    n
}

// The OR with the output o of the words of a row from one place up to another.
pub fn store_or(row: &[u32], from: usize, to: usize, o: u32, at: usize, out: &mut [u32]) -> usize
    requires { (from ≤ to) × ((to ≤ 125) × ((to ≤ length row.now) × ((at + (to - from) + 2 ≤ length out.old) × (o < 1073741824)))) }
    ensures holds { Holds out.new result (take at out.old ++ node_words (or (drop from (take to row.now))) o) }
    ensures value { result ≡ at + (to - from) + 2 }
{
    out[at] = (to - from) as u32;
    let last = store_words(row, from, to, at + 1, out);
    out[last] = 2 * o + 1 + LAST;
    last + 1
}

// I of an idle time, with the output v + 2: not x, and both of the nodes v and v + 1.
pub fn store_idling(x: u32, v: u32, at: usize, out: &mut [u32]) -> usize
    requires { (at + 5 ≤ length out.old) × (v + 2 < 1073741824) }
    ensures holds { Holds out.new result (take at out.old ++ node_words (and (opp x ∷ pos v ∷ pos (v + 1) ∷ [])) (v + 2)) }
    ensures value { result ≡ at + 5 }
{
    out[at] = 3;
    out[at + 1] = x;
    out[at + 2] = 2 * v + 1;
    out[at + 3] = 2 * (v + 1) + 1;
    out[at + 4] = 2 * (v + 2) + LAST;
    at + 5
}

// Two variables' literals, after a head word, and the literal l, marked.
fn store_two(x: u32, y: u32, l: u32, at: usize, out: &mut [u32]) -> usize
    requires { (at + 4 ≤ length out.old) × ((x < 1073741824) × ((y < 1073741824) × (l < 2147483648))) }
    ensures holds { Holds out.new result (take at out.old ++ 2 ∷ pos x ∷ pos y ∷ (l + 2147483648) ∷ []) }
    ensures value { result ≡ at + 4 }
{
    out[at] = 2;
    out[at + 1] = 2 * x;
    out[at + 2] = 2 * y;
    out[at + 3] = l + LAST;
    at + 4
}

// The OR with the output o of two variables. This and the next stay two functions, since each promises a node of its own.
pub fn store_either(x: u32, y: u32, o: u32, at: usize, out: &mut [u32]) -> usize
    requires { (at + 4 ≤ length out.old) × ((x < 1073741824) × ((y < 1073741824) × (o < 1073741824))) }
    ensures holds { Holds out.new result (take at out.old ++ node_words (or (pos x ∷ pos y ∷ [])) o) }
    ensures value { result ≡ at + 4 }
{
    store_two(x, y, 2 * o + 1, at, out)
}

// The AND with the output o of two variables, each negated.
pub fn store_neither(x: u32, y: u32, o: u32, at: usize, out: &mut [u32]) -> usize
    requires { (at + 4 ≤ length out.old) × ((x < 1073741824) × ((y < 1073741824) × (o < 1073741824))) }
    ensures holds { Holds out.new result (take at out.old ++ node_words (and (neg x ∷ neg y ∷ [])) o) }
    ensures value { result ≡ at + 4 }
{
    store_two(x, y, 2 * o, at, out)
}
