// The trail of a step: the literals that its hints set true, in a store of fixed length. specs/ says what it holds.
#![tactic(auto)]

ghost use Rattle.std.specs.Prelude.{◌≡◌, length};
ghost use Rattle.trail.specs.Recorded.{recorded, recorded_at};

// A literal is put on the trail, which holds so many; past its end it is not. How many it then holds: one number, the largest where
// there was no room, since the machine that keeps it compares it with what a trail can hold.
#[tactic(auto, unfolding(crate::specs::Recorded::recorded_at))]
pub fn record_literal(trail: &mut [u32], set: usize, l: u32) -> usize
    ensures value { result ≡ recorded_at (length trail.old) set }
    ensures trail_after { trail.new ≡ recorded trail.old set l }
{
    if trail.len() <= set {
        return usize::MAX;
    }
    trail[set] = l;
    set + 1
}
