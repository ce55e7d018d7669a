// The table of the users of each resource, filled from the rows of the events' resources: one turn for each member of a row.
ghost use Rattle.std.specs.Prelude.{◌≡◌, ℕ, ◌+◌, ◌*◌, ◌≤◌, ◌<◌, length, get_or};
ghost use Rattle.user_table.specs.Users.{users_in};
ghost use Rattle.user_table.specs.Filled.{Filled, EventRows, UserRows, users_at, pushed};

use tables::{row_len, row_member};

// How many numbers a row has: how many events, and their numbers. All rows stand in one array, since there is no heap.
const ROW: usize = 1025;

// One event more in the row of resource r.
fn push(users: &mut [u16], r: usize, e: u16)
    requires { (length users.old ≡ 102500) × ((r ≤ 99) × (get_or users.old (r * 1025) 0 < 1024)) }
    ensures { users.new ≡ pushed users.old r e }
{
    let at = r * ROW;
    let n = users[at] + 1;
    users[at] = n;
    users[at + usize::from(n)] = e;
}

// Event number row + 1, into the row of each of its resources.
fn add_event(resources: &[u8], row: usize, users: &mut [u16])
    requires row_bound { row < 1024 }
    requires event_rows { EventRows resources.now (row + 1) }
    requires filled { Filled users.old (users_in resources.now row) }
    ensures { Filled users.new (users_in resources.now (row + 1)) }
{
    let n = row_len(resources, row);
    let e = (row + 1) as u16;
    for k in 0..n {
        push(users, usize::from(row_member(resources, row, k)), e);
    }
}

// The first events, into a table of zeros.
pub fn fill_users(resources: &[u8], events: u32, users: &mut [u16])
    requires events_bound { events ≤ 1024 }
    requires event_rows { EventRows resources.now events }
    requires users_len { length users.old ≡ 102500 }
    requires by_index { (x : ℕ) → get_or users.old x 0 ≡ 0 }
    ensures { Filled users.new (users_in resources.now events) }
{
    for row in 0..events as usize {
        add_event(resources, row, users);
    }
}

// The events that use resource r.
pub fn users_of(users: &[u16], r: u32) -> &[u16]
    requires { UserRows users.now × (r ≤ 99) }
    ensures { result.now ≡ users_at users.now r }
{
    let at = r as usize * ROW;
    let first = at + 1;
    &users[first..first + users[at] as usize]
}
