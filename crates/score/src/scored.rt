// The score of bytes that are a timetable.
ghost use Rattle.std.specs.Prelude.{◌≡◌, List, ℕ};
ghost use Rattle.scope.specs.Score.{infeasibility, objective};
ghost use Rattle.instance.specs.Answers.{instance_of};
ghost use Rattle.instance.specs.Laws.{Accepted};
ghost use Rattle.timetable.specs.Right.{Passed};
ghost use Rattle.score.specs.Ready.{Scorable};

use crate::walk::{Score, charge_all};
use constraint::Head;
use resource_uses::{count_uses, mark_used};

// The uses are counted once, before the constraints are charged.
pub fn score_of(
    file: &[u8],
    bytes: &[u8],
    head: Head,
    resources: &[u8],
    groups: &[u8],
    list: &mut [u16],
) -> Score
    requires { Scorable file.now bytes.now resources.now groups.now list.old head }
    ensures { (d : List ℕ) → Accepted file.now d resources.now groups.now head
        → Passed (instance_of file.now d resources.now groups.now head) bytes.now
        → (result.infeasibility ≡ infeasibility
        (instance_of file.now d resources.now groups.now head) bytes.now)
        × (result.objective ≡ objective
        (instance_of file.now d resources.now groups.now head) bytes.now) }
{
    let events = head.events as usize;
    let times = head.times as usize;
    // of fixed size: there is no heap
    let mut uses = [0u16; 12375];
    count_uses(&mut uses, resources, bytes, events, times);
    // of fixed size: there is no heap
    let mut used = [0u8; 12375];
    mark_used(&uses, &mut used);
    charge_all(file, head, bytes, &uses, &used, groups, list)
}
