// Kind 3's walk over the times, at a time that a subevent can have come to from the time before it.
ghost use Rattle.std.specs.Prelude.{◌∷◌, [], ◌-◌, ◌≤◌};
ghost use Rattle.scope.specs.Kinds.{carried, both};
ghost use Rattle.chain_lists.specs.Walk.{Room, Went};

use list_nodes::{store_either, store_until, store_with};

// Where the walk stands: how many of the next times can be reached from times outside the group, the next variable, the variable
// of the last member, where the nodes end in the words, how many members there are.
#[derive(Clone, Copy)]
pub struct Walk {
    pub near: u32,
    pub next: u32,
    pub last: u32,
    pub at: usize,
    pub members: usize,
}

// A time in the group: M and C. Y and S of the event come after the variables y and s.
pub fn carry(w: Walk, y: u32, s: u32, t: u32, out: &mut [u32]) -> Walk
    requires { (1 ≤ w.near) × Room w y s t out.old }
    ensures { Went y s (w.near - 1) (carried t ∷ []) w out.old result out.new }
{
    let m = store_until(y + t, s + t, 0, w.next, w.at, out);
    let at = store_with(w.last, w.next, 1, w.next + 1, m, out);
    Walk {
        near: w.near - 1,
        next: w.next + 2,
        last: w.next + 1,
        at,
        members: w.members + 1,
    }
}

// A time outside the group: M and C, and D, since a subevent can also start there; from it so many of the next can be reached.
pub fn carry_or_start(w: Walk, after: u32, y: u32, s: u32, t: u32, out: &mut [u32]) -> Walk
    requires { (1 ≤ w.near) × Room w y s t out.old }
    ensures { Went y s after (both t ∷ []) w out.old result out.new }
{
    let c = carry(w, y, s, t, out);
    let at = store_either(s + t, c.last, c.next, c.at, out);
    Walk {
        near: after,
        next: c.next + 1,
        last: c.next,
        at,
        members: c.members,
    }
}
