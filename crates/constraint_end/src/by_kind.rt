// The length of a constraint's counted list, by arithmetic, by its kind.
ghost use Rattle.std.specs.Prelude.{◌≡◌};
ghost use Rattle.number.specs.Lists.{leading};
ghost use Rattle.fields.specs.Kind.{number_of};
ghost use Rattle.fields.specs.Made.{kind_from};
ghost use Rattle.constraint.specs.Answers.{counts_in};
ghost use Rattle.constraint.specs.Valid.{InRange};
ghost use Rattle.constraint_end.specs.Ready.{Ready, length_by, by_counts};

use crate::clash::length_of_clash;
use crate::group::group_size;
use crate::idle::length_of_idle;
use crate::spread::length_of_spread;
use constraint::Head;
use fields::{Flat, KindName};

// loads[r] is how many events use resource r. Kinds 2 and 6 have the times of the group, 4, 9 and 10 a member for each time, 7 the
// groups, 11 one member. Every check passes for kind 3, so 0 stands for its length.
#[tactic(auto, unfolding(fields::specs::Made::kind_from, crate::specs::Length::list_length))]
pub fn list_length(
    kind: KindName,
    w: Flat,
    head: Head,
    loads: &[u32],
    groups: &[u8],
    list: &[u16],
) -> u32
    requires ready { Ready loads.now groups.now list.now head }
    requires in_range { InRange (counts_in head) (kind_from (number_of kind) w (leading w.list list.now)) }
    ensures { result ≡ length_by (by_counts loads.now) groups.now head (kind_from (number_of kind) w (leading w.list list.now)) }
{
    match kind {
        KindName::Clash => length_of_clash(w.d, loads),
        KindName::Unavailable => group_size(groups, w.d),
        KindName::Preferred => 0,
        KindName::Split => head.times,
        KindName::Spread => length_of_spread(w.list, w.b, groups),
        KindName::Busy => group_size(groups, w.b),
        KindName::Cluster => w.list,
        KindName::Idle => length_of_idle(groups, list, w.list),
        KindName::Distribute => head.times,
        KindName::Lengths => head.times,
        KindName::Precedence => 1,
    }
}
