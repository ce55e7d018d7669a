// The literals of a new clause are read, and made false.
ghost use Rattle.std.specs.Prelude.{◌≡◌, cond, ◌/◌, ◌%◌, ◌-◌};
ghost use Rattle.marks.specs.Marks.{marks_of, put_mark};
ghost use Rattle.spelling.specs.Spelt.{literal_ok, literals_at};

use marks::{mark_of, put_mark};
use reader::Reader;

// A literal of a new clause is made false: it is of a variable up to the last, which was open.
fn deny(marks: &mut [u8], l: u32, last: usize) -> bool
    ensures value { result ≡ literal_ok last (marks_of marks.old) l }
    ensures marks_after { marks.new ≡ cond result (put_mark marks.old (l / 2) (2 - l % 2)) marks.old }
{
    if l < 2 {
        return false;
    }
    let v = (l / 2) as usize;
    if last < v {
        return false;
    }
    if mark_of(marks, v) != 0 {
        return false;
    }
    let mark = (2 - l % 2) as u8;
    put_mark(marks, v, mark);
    true
}

// The literals of a new clause are read, and made false: how many, and where what follows their 0 stands. None where they are misformed.
pub fn read_literals(
    proof: &[u8],
    at: usize,
    last: usize,
    marks: &mut [u8],
) -> Option<(usize, usize)>
    ensures value { result ≡ (literals_at proof.now at last marks.old).found }
    ensures marks_after { marks.new ≡ (literals_at proof.now at last marks.old).marks }
{
    let mut r = Reader::new(proof, at);
    let mut size = 0;
    while let Ok((l, next)) = r.number() {
        if l == 0 {
            return Some((size, next));
        }
        if !deny(marks, l, last) {
            return None;
        }
        r = r.moved(next);
        size += 1;
    }
    None
}
