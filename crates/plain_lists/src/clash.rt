// Kind 1: for each time a list, Y of the events that use a resource.
ghost use Rattle.std.specs.Prelude.{◌≡◌, [], ◌≤◌, length};
ghost use Rattle.scope.specs.Kinds.{clash};
ghost use Rattle.literals.specs.Variables.{Within};
ghost use Rattle.user_table.specs.Filled.{users_at, UserRows};
ghost use Rattle.list_nodes.specs.Stored.{list_in, num_of, Plain};

use constraint::{Clash, Head};
use list_nodes::{Filled, plain};

// The list of time t.
pub fn fill_clash(f: Clash, t: u32, head: Head, users: &[u16], out: &mut [u32]) -> Filled
    requires { UserRows users.now × ((f.resource ≤ 99) × ((head.times ≤ 125) × (Within head.times t × (length out.old ≡ 34816)))) }
    ensures { Plain (num_of head) (list_in [] (users_at users.now) [] head (clash f.resource) t) out.new result }
{
    let events = user_table::users_of(users, f.resource);
    let k = literals::y_of_events(events, head.times, t, out);
    plain(k)
}
