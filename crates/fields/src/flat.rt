// The fields of a constraint as plain numbers, before its kind is made.
ghost use Rattle.std.specs.Prelude.{◌≡◌};
ghost use Rattle.fields.specs.Flat.{pushed, put_or};

// The last four numbers that were read, the latest in d, and the length of the list.
#[derive(Clone, Copy)]
pub struct Flat {
    pub a: u32,
    pub b: u32,
    pub c: u32,
    pub d: u32,
    pub list: u32,
}

// With one more number.
pub fn push(w: Flat, v: u32) -> Flat
    ensures { result ≡ pushed v w }
{
    Flat {
        a: w.b,
        b: w.c,
        c: w.d,
        d: v,
        list: w.list,
    }
}

// With one more number, or with the length of a list.
#[tactic(auto, unfolding(crate::specs::Flat::put_or))]
pub fn put(w: Flat, listed: bool, v: u32) -> Flat
    ensures { result ≡ put_or listed v w }
{
    if listed {
        return Flat { list: v, ..w };
    }
    push(w, v)
}
