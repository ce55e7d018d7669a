// Where the rows of events and of resources begin.
ghost use Rattle.std.specs.Prelude.{◌≡◌, ◌-◌, ◌*◌, ◌≤◌};
ghost use Rattle.constraint.specs.Answers.{counts_in};
ghost use Rattle.deviation.specs.Charge.{SizesIn};

use constraint::Head;

// Where the row of an event or of a resource begins, in rows of so many times.
pub fn row_of(number: u32, times: u32) -> usize
    requires { (1 ≤ number) × ((number ≤ 1024) × (times ≤ 125)) }
    ensures { result ≡ (number - 1) * times }
{
    let before = (number - 1) as usize;
    let each = times as usize;
    before * each
}

// Where the starts begin.
pub fn starts_of(head: Head) -> usize
    requires { SizesIn (counts_in head) }
    ensures { result ≡ head.events * head.times }
{
    let events = head.events as usize;
    let times = head.times as usize;
    events * times
}
