// The kinds of constraint, without their fields.
ghost use Rattle.std.specs.Prelude.{◌≡◌, ◌≤◌};
ghost use Rattle.fields.specs.Kind.{number_of};

// In the order of document 01, which numbers them from 1.
#[derive(Clone, Copy)]
pub enum KindName {
    Clash = 1,
    Unavailable = 2,
    Preferred = 3,
    Split = 4,
    Spread = 5,
    Busy = 6,
    Cluster = 7,
    Idle = 8,
    Distribute = 9,
    Lengths = 10,
    Precedence = 11,
}

// The kind of a number that was read.
pub fn kind_named(number: u32) -> KindName
    requires low { 1 ≤ number }
    requires high { number ≤ 11 }
    ensures { number_of result ≡ number }
{
    match number {
        1 => KindName::Clash,
        2 => KindName::Unavailable,
        3 => KindName::Preferred,
        4 => KindName::Split,
        5 => KindName::Spread,
        6 => KindName::Busy,
        7 => KindName::Cluster,
        8 => KindName::Idle,
        9 => KindName::Distribute,
        10 => KindName::Lengths,
        _ => KindName::Precedence,
    }
}
