// The walk over the constraints of an accepted file: each is decoded once and charged.
ghost use Rattle.std.specs.Prelude.{◌≡◌, cond, ◌+◌, ◌*◌, ◌≤◌, eqb};
ghost use Rattle.deviation.specs.Charge.{charge_of};
ghost use Rattle.score.specs.Amounts.{hard_sum, soft_sum, decoded_of, Walkable};

use constraint::{Head, constraint_at};
use deviation::deviation_of;
use scope::{Infeasibility, Objective};

// Infeasibility and objective, which are never added together.
#[derive(Clone, Copy)]
pub struct Score {
    pub infeasibility: Infeasibility,
    pub objective: Objective,
}

// A hard constraint's deviation more.
fn with_hard(sum: Infeasibility, weight: u32, deviation: u32) -> Infeasibility
    requires { sum.0 ≤ 17592186044416 }
    ensures { result.0 ≡ sum.0 + cond (eqb weight 0) deviation 0 }
{
    if weight == 0 {
        return Infeasibility(sum.0 + u64::from(deviation));
    }
    sum
}

// Weight times deviation more.
fn with_soft(sum: Objective, weight: u32, deviation: u32) -> Objective
    requires { (sum.0 ≤ 17592186044416000) × (weight ≤ 1000) }
    ensures { result.0 ≡ sum.0 + weight * deviation }
{
    Objective(sum.0 + u64::from(weight) * u64::from(deviation))
}

// All constraints, of a timetable's bytes, the table of its uses and the table of X.
pub fn charge_all(
    file: &[u8],
    head: Head,
    bytes: &[u8],
    uses: &[u16],
    used: &[u8],
    groups: &[u8],
    list: &mut [u16],
) -> Score
    requires { Walkable file.now head bytes.now uses.now used.now groups.now list.old }
    ensures { (result.infeasibility.0 ≡ hard_sum (charge_of (head.events * head.times) head.times
        bytes.now uses.now used.now groups.now) (decoded_of file.now head))
        × (result.objective.0 ≡ soft_sum (charge_of (head.events * head.times) head.times
        bytes.now uses.now used.now groups.now) (decoded_of file.now head)) }
{
    let mut next = head.start;
    let mut hard = Infeasibility(0);
    let mut soft = Objective(0);
    for _i in 0..head.constraints {
        // no constraint of an accepted file is refused
        let (c, after) = constraint_at(file, next, head, list).unwrap();
        let deviation = deviation_of(c.kind, head, bytes, uses, used, groups, list);
        hard = with_hard(hard, c.weight, deviation);
        soft = with_soft(soft, c.weight, deviation);
        next = after;
    }
    Score {
        infeasibility: hard,
        objective: soft,
    }
}
