// How a clause stands under the marks. A clause is len words from the word first on, as far as there are words.
#![tactic(auto)]

ghost use Rattle.std.specs.Prelude.{◌≡◌};
ghost use Rattle.theory.specs.Marked.{also_open, also_literal, standing, falsified};
ghost use Rattle.marks.specs.Marks.{marks_of};
ghost use Rattle.standing.specs.Clauses.{part, stands, wiped};

use marks::{mark_of, put_mark};

// How a clause stands under the marks: all its literals false; one open, the others false; anything else.
#[derive(Clone, Copy)]
pub enum Standing {
    Falsified,
    OneOpen(u32),
    Other,
}

// With one open literal more.
fn also_open(s: Standing, l: u32) -> Standing
    ensures { stands result ≡ also_open (stands s) l }
{
    match s {
        Standing::Falsified => Standing::OneOpen(l),
        Standing::OneOpen(_) | Standing::Other => Standing::Other,
    }
}

// With one literal more, whose variable has the mark.
fn also_literal(s: Standing, mark: u32, l: u32) -> Standing
    ensures { stands result ≡ also_literal (stands s) mark l }
{
    if mark == 0 {
        return also_open(s, l);
    }
    if mark == 1 + l % 2 {
        return Standing::Other;
    }
    s
}

// How a clause stands.
pub fn standing_of(marks: &[u8], words: &[u32], first: usize, len: usize) -> Standing
    ensures { stands result ≡ standing (marks_of marks.now) falsified (part first len words.now) }
{
    let end = words.len().min(first.saturating_add(len));
    let mut s = Standing::Falsified;
    for i in first..end {
        let l = words[i];
        let v = (l / 2) as usize;
        s = also_literal(s, u32::from(mark_of(marks, v)), l);
    }
    s
}

// The variables of a clause are open again.
pub fn wipe_clause(marks: &mut [u8], words: &[u32], first: usize, len: usize)
    ensures { marks.new ≡ wiped marks.old (part first len words.now) }
{
    let end = words.len().min(first.saturating_add(len));
    for i in first..end {
        let v = (words[i] / 2) as usize;
        put_mark(marks, v, 0);
    }
}
