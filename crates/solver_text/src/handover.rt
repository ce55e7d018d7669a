// A model that is decoded goes to the caller.
ghost use Rattle.std.specs.Prelude.{◌≡◌, ◌≤◌, length, take};
ghost use Rattle.solver_text.specs.Read.{Room, handed_over};

use evaluation::Evaluation;

// The front of some bytes, as many as there is room for. Tried with copy_from_slice, for which the library for C needs memmove from
// outside.
fn copy_front(from: &[u8], to: &mut [u8])
    requires { length to.old ≤ length from.now }
    ensures { to.new ≡ take (length to.old) from.now }
{
    for i in 0..to.len() {
        to[i] = from[i];
    }
}

// The front of the store, where a model was decoded; else the lent model is as it was.
pub fn hand_over(e: Evaluation, store: &[u8], model: &mut [u8])
    requires { Room e (length model.old) (length store.now) }
    ensures { model.new ≡ handed_over e store.now model.old }
{
    if e.is_ok() {
        copy_front(store, model);
    }
}
