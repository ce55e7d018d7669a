// The proof as it is read: the lent bytes, and the position of what is read next.
#![tactic(auto)]

ghost use Rattle.std.specs.Prelude.{◌≡◌, get_or};
ghost use Rattle.scope.specs.Answers.{said};
ghost use Rattle.scope.specs.Number.{number as number_at};

use number::near;
use scope::Parsed;

#[derive(Clone, Copy)]
pub struct Reader<'a> {
    pub bytes: &'a [u8],
    pub at: usize,
}

impl<'a> Reader<'a> {
    // A reader over the bytes, at a position.
    pub fn new(bytes: &'a [u8], at: usize) -> Reader<'a>
        ensures { (result.bytes ≡ bytes.entry) × (result.at ≡ at) }
    {
        Reader { bytes, at }
    }

    // The reader at another position.
    pub fn moved(self, at: usize) -> Reader<'a>
        ensures { (result.bytes ≡ self.entry.bytes) × (result.at ≡ at) }
    {
        Reader {
            bytes: self.bytes,
            at,
        }
    }

    // The byte of a step, its first; 0 where there is none.
    pub fn step_byte(self) -> u8
        ensures { result ≡ get_or self.entry.bytes.now self.entry.at 0 }
    {
        self.bytes.get(self.at).copied().unwrap_or(0)
    }

    // A number, with the position after it.
    pub fn number(self) -> Parsed<u32>
        ensures { said result ≡ number_at self.entry.bytes.now self.entry.at }
    {
        near(self.bytes, self.at)
    }
}
