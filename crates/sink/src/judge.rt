// The truth of a variable, of a literal and of a soft unit in a model.
ghost use Rattle.std.specs.Prelude.{◌≡◌};
ghost use Rattle.scope.specs.Cnf.{bit, lit};
ghost use Rattle.sink.specs.World.{charged_sink};

use super::Sink;

// Whether a variable is true in a model; one that the model does not have is false.
pub fn variable_true(model: &[u8], v: usize) -> bool
    ensures { result ≡ bit model.now v }
{
    if v == 0 {
        return false;
    }
    let i = v - 1;
    if i < model.len() {
        return model[i] == 1;
    }
    false
}

// Whether a literal is true in a model.
pub fn literal_true(model: &[u8], l: u32) -> bool
    ensures { result ≡ lit (bit model.now) l }
{
    let t = variable_true(model, (l / 2) as usize);
    if l % 2 == 1 {
        return !t;
    }
    t
}

// A soft unit in a model: its weight is added where it is false.
pub fn charge(model: &[u8], s: Sink, weight: u32, l: u32) -> Sink
    ensures { result ≡ charged_sink (lit (bit model.now) l) weight s }
{
    if literal_true(model, l) {
        return s;
    }
    let lost = digits::advance(s.lost as usize, weight as usize) as u64;
    Sink { lost, ..s }
}
