// A clause's literals, as they stand in a proof, are copied into the words.
ghost use Rattle.std.specs.Prelude.{◌≡◌};
ghost use Rattle.copying.specs.Copies.{copied_at};

use reader::Reader;

// The literals that stand at an offset are copied into the words from first on, as far as there are words.
pub fn copy_literals(proof: &[u8], at: usize, words: &mut [u32], first: usize)
    ensures { words.new ≡ copied_at proof.now at words.old first }
{
    let mut r = Reader::new(proof, at);
    let mut to = first;
    while let Ok((l, next)) = r.number() {
        if l == 0 || words.len() <= to {
            return;
        }
        words[to] = l;
        r = r.moved(next);
        to += 1;
    }
}
