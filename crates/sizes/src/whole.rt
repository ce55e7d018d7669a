// The sizes of the formula and of its tail, for a file that was accepted.
ghost use Rattle.instance.specs.Answers.{instance_of};
ghost use Rattle.sizes.specs.Opened.{Opened};
ghost use Rattle.sizes.specs.Whole.{WholeOf};

use before_sizes::before_size;
use constraint::Head;
use part_sizes::{Total, constraints_total};
use user_table::fill_users;

// The file's events and groups stand in the tables; list is a store for a constraint's list of numbers. The users of each
// resource are found once for all, and one store holds each counted list in turn.
pub fn whole_size(
    file: &[u8],
    head: Head,
    durations: &[u8],
    resources: &[u8],
    groups: &[u8],
    list: &mut [u16],
    bound: u64,
) -> Total
    requires { Opened file.now durations.now resources.now groups.now list.old head bound }
    ensures { WholeOf (instance_of file.now durations.now resources.now groups.now head) bound result }
{
    // of fixed size: there is no heap
    let mut users = [0u16; 102500];
    let mut store = [0u32; 34816];
    fill_users(resources, head.events, &mut users);
    let before = before_size(head, &users, durations);
    constraints_total(
        file,
        head,
        durations,
        &users,
        groups,
        list,
        &mut store,
        bound + 1,
        before,
    )
}
