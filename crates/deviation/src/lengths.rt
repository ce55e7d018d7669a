// Kind 10: the subevents of an event that are shorter than its shortest length or longer than its longest.
ghost use Rattle.std.specs.Prelude.{◌≡◌, ◌*◌};
ghost use Rattle.scope.specs.Kinds.{lengths};
ghost use Rattle.constraint.specs.Answers.{counts_in};
ghost use Rattle.constraint.specs.Valid.{InRange};
ghost use Rattle.deviation.specs.Charge.{BytesIn, lengths_charge};

use crate::subevents::{Wanted, subevents_of};
use constraint::{Head, Lengths};

pub fn of_lengths(f: Lengths, head: Head, bytes: &[u8]) -> u32
    requires { BytesIn (counts_in head) bytes.now × InRange (counts_in head) (lengths f.event f.shortest f.longest) }
    ensures { result ≡ lengths_charge (head.events * head.times) head.times bytes.now f.event f.shortest f.longest }
{
    let wanted = Wanted {
        from: f.shortest,
        to: f.longest,
        outside: true,
    };
    subevents_of(f.event, head, bytes, wanted)
}
