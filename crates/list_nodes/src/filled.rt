// What a filled list has.
ghost use Rattle.std.specs.Prelude.{◌≡◌};

// How many nodes there are, where the members begin in the words, and where they end.
#[derive(Clone, Copy)]
pub struct Filled {
    pub nodes: usize,
    pub at: usize,
    pub end: usize,
}

// Of a list without nodes, whose members are the first n words.
pub fn plain(n: usize) -> Filled
    ensures { result ≡ record { nodes = 0; at = 0; end = n } }
{
    Filled {
        nodes: 0,
        at: 0,
        end: n,
    }
}
