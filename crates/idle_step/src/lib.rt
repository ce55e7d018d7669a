// A walk over a group's members counts the idle times, which are members without X between members with X. It is nothing but this
// step.
#![tactic(auto)]

ghost use Rattle.std.specs.Prelude.{◌≡◌, ◌≤◌};
ghost use Rattle.scope.specs.Idle.{idle_step};

use scope::Kept;

// One member more, with X or without.
pub fn step(k: Kept, used: bool) -> Kept
    requires { (k.idle ≤ 4294967295) × (k.since ≤ 4294967295) }
    ensures { result ≡ idle_step k used }
{
    if used {
        let idle = k.idle + k.since;
        return Kept {
            idle,
            since: 0,
            seen: true,
        };
    }
    if k.seen {
        let since = k.since + 1;
        return Kept {
            idle: k.idle,
            since,
            seen: true,
        };
    }
    k
}
