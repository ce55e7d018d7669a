// A window's numbers: a day, and two times of day.
ghost use Rattle.std.specs.Prelude.{◌≡◌};
ghost use Rattle.windows.specs.Answers.{said_window};
ghost use Rattle.windows.specs.Window.{window_fields};

use calendar::limited_in;
use scope::Parsed;

// A day from 1 to 7, from and to in minutes.
pub fn window_at(s: &[u8], at: usize) -> Parsed<(u32, u32, u32)>
    ensures { said_window result ≡ window_fields s.now at }
{
    let (day, next) = limited_in(s, at, at, 1, 7)?;
    let (from, more) = limited_in(s, next, at, 0, 1440)?;
    let (to, end) = limited_in(s, more, at, 0, 1440)?;
    Ok(((day, from, to), end))
}
