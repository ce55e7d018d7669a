// Numbers are passed over, up to a 0.
ghost use Rattle.std.specs.Prelude.{◌≡◌};
ghost use Rattle.passing.specs.Passed.{passed_at};

use reader::Reader;

// The numbers up to a 0 are passed over: where what follows the 0 stands. None where no 0 comes.
pub fn pass_numbers(proof: &[u8], at: usize) -> Option<usize>
    ensures { result ≡ passed_at proof.now at }
{
    let mut r = Reader::new(proof, at);
    while let Ok((n, next)) = r.number() {
        if n == 0 {
            return Some(next);
        }
        r = r.moved(next);
    }
    None
}
