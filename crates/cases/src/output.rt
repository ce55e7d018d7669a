// What is printed, with the first failure of a write: after that nothing more is written.
ghost use Rattle.std.specs.Prelude.{◌≡◌, IsErr, IsOk};

use std::fmt::Display;
use std::io;

#[derive(Drop)]
pub struct Output<'a, P: Print> {
    to: &'a P,
    written: io::Result<()>,
}

impl<'a, P: Print> Output<'a, P> {
    // Nothing has failed yet.
    pub fn new(to: &'a P) -> Output<'a, P>
        ensures { IsOk result.written }
    {
        Output {
            to,
            written: Ok(()),
        }
    }

    // The first failure stays.
    pub fn put(&mut self, text: &[u8])
        ensures { IsErr self.old.written → self.new.written ≡ self.old.written }
    {
        if self.written.is_ok() {
            self.written = self.to.write_all(text);
        }
    }

    // The same of what has a text, as a number or a refusal; bytes have none, so these are two.
    pub fn print<D: Display + Drop>(&mut self, value: D)
        ensures { IsErr self.old.written → self.new.written ≡ self.old.written }
    {
        if self.written.is_ok() {
            self.written = self.to.print(value);
        }
    }

    // Whether all was written.
    pub fn end(self) -> io::Result<()>
        ensures { result ≡ self.entry.written }
    {
        self.written
    }
}
