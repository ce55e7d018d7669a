// How many things there are to refer to, which of them the first field refers to, and whether the second is a list.
ghost use Rattle.std.specs.Prelude.{◌≡◌, eqb};
ghost use Rattle.fields.specs.Kind.{number_of};
ghost use Rattle.fields.specs.Table.{things_of, second_listed};

use crate::kind::KindName;

// How many things there are to refer to.
#[derive(Clone, Copy)]
pub struct Totals {
    pub times: u32,
    pub events: u32,
    pub resources: u32,
    pub groups: u32,
}

// The things that the first field refers to: events in kinds 3 to 5 and 9 to 11, else resources.
#[tactic(auto, unfolding(crate::specs::Table::things_of))]
pub fn things_of(kind: KindName, t: Totals) -> u32
    ensures { result ≡ things_of t (number_of kind) }
{
    match kind {
        KindName::Clash | KindName::Unavailable => t.resources,
        KindName::Preferred | KindName::Split | KindName::Spread => t.events,
        KindName::Busy | KindName::Cluster | KindName::Idle => t.resources,
        KindName::Distribute | KindName::Lengths | KindName::Precedence => t.events,
    }
}

// Whether the first field is a list: kind 5.
pub fn first_listed(kind: KindName) -> bool
    ensures { result ≡ eqb (number_of kind) 5 }
{
    matches!(kind, KindName::Spread)
}

// Whether the second field is a list: kinds 7 and 8.
#[tactic(auto, unfolding(crate::specs::Table::second_listed))]
pub fn second_listed(kind: KindName) -> bool
    ensures { result ≡ second_listed (number_of kind) }
{
    matches!(kind, KindName::Cluster | KindName::Idle)
}
