// A block as words.
ghost use Rattle.std.specs.Prelude.{◌≡◌, ◌+◌, ◌≤◌, length};
ghost use Rattle.std.proofs.lemmas.List.Edits.{sets};
ghost use Rattle.sink.specs.Run.{Ran, out, put};

use digits::{put_all, room};

// The words of a block, where there is room. Tried with copy_from_slice, for which the library for C needs memmove from outside.
fn copy_words(words: &mut [u32], at: usize, block: &[u32])
    requires { at + length block.now ≤ length words.old }
    ensures { words.new ≡ sets words.old at block.now }
{
    for i in 0..block.len() {
        words[at + i] = block[i];
    }
}

// The words of a block.
pub fn words_block(words: &mut [u32], at: usize, block: &[u32]) -> usize
    ensures { Ran put block.now (out at words.old) (out result words.new) }
{
    if room(at, block.len(), words.len()) {
        copy_words(words, at, block);
        return at + block.len();
    }
    put_all(words, at, block)
}
