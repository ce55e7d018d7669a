// The marks of variables: one byte for each, variable v at byte v - 1. A mark past the bytes is open, and is not set.
#![tactic(auto)]

ghost use Rattle.std.specs.Prelude.{◌≡◌};
ghost use Rattle.marks.specs.Marks.{marks_of, put_mark};

// The mark of a variable.
pub fn mark_of(marks: &[u8], v: usize) -> u8
    ensures { result ≡ marks_of marks.now v }
{
    if v == 0 {
        return 0;
    }
    let i = v - 1;
    if marks.len() <= i {
        return 0;
    }
    marks[i]
}

// A variable gets a mark.
pub fn put_mark(marks: &mut [u8], v: usize, mark: u8)
    ensures { marks.new ≡ put_mark marks.old v mark }
{
    if v == 0 {
        return;
    }
    let i = v - 1;
    if marks.len() <= i {
        return;
    }
    marks[i] = mark;
}
