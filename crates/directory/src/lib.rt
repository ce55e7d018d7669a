// The directory: a row for each clause, in ascending order of their ids. The code of other crates makes rows and looks into them
// by the functions here alone, but for the program cases, which lends rows of its own; definitions and laws name a row's parts.
#![tactic(auto)]

ghost use Rattle.std.specs.Prelude.{◌≡◌, ◌%◌, length, replicate, set};
ghost use Rattle.directory.specs.Rows.{no_row, new_row, first_word, is_dead};
ghost use Rattle.directory.specs.Directory.{with_dead};

// A clause's id, its first word within a block of 2^32 words, its length, and 0 if it is dead, else 1 and the number of that block.
#[repr(C)]
#[derive(Clone, Copy)]
pub struct Row {
    pub id: u32,
    pub first: u32,
    pub len: u32,
    pub live: u32,
}

// A block of words that a row's first counts in.
const BLOCK: usize = 4294967296;

// The lower half of a number.
fn low(x: usize) -> u32
    ensures { result ≡ x % 4294967296 }
{
    (x % BLOCK) as u32
}

impl Row {
    // A row of a clause that is live.
    #[tactic(auto, unfolding(crate::specs::Rows::new_row))]
    pub fn new(id: usize, first: usize, len: usize) -> Row
        ensures { result ≡ new_row id first len }
    {
        Row {
            id: low(id),
            first: low(first),
            len: low(len),
            live: low(1 + first / BLOCK),
        }
    }

    // The row of no clause.
    pub fn none() -> Row
        ensures { result ≡ no_row }
    {
        Row {
            id: 0,
            first: 0,
            len: 0,
            live: 0,
        }
    }

    // The id of its clause.
    pub fn id(self) -> usize
        ensures { result ≡ self.id }
    {
        self.id as usize
    }

    // The first word of its clause.
    #[tactic(auto, unfolding(crate::specs::Rows::first_word))]
    pub fn first_word(self) -> usize
        ensures { result ≡ first_word self }
    {
        if self.live == 0 {
            return self.first as usize;
        }
        (self.live as usize - 1) * BLOCK + self.first as usize
    }

    // How many words its clause has.
    pub fn word_count(self) -> usize
        ensures { result ≡ self.len }
    {
        self.len as usize
    }

    // Whether it was deleted, or there is none.
    pub fn is_dead(self) -> bool
        ensures { result ≡ is_dead self }
    {
        self.live == 0
    }
}

// The row i is no longer live.
pub fn mark_dead(rows: &mut [Row], i: usize)
    ensures { rows.new ≡ with_dead rows.old i }
{
    if rows.len() <= i {
        return;
    }
    rows[i].live = 0;
}

// A row after the first n, if there is room.
// How many rows are in use stands beside them: a caller in C lends them, and there is no heap.
pub fn append(rows: &mut [Row], n: usize, row: Row)
    ensures { rows.new ≡ set rows.old n row }
{
    if rows.len() <= n {
        return;
    }
    rows[n] = row;
}

// Every row is that of no clause.
pub fn clear(rows: &mut [Row])
    ensures { rows.new ≡ replicate (length rows.old) no_row }
{
    rows.fill(Row::none());
}
