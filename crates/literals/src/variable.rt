// Variables and literals. Y, S and X are three blocks of variables, each with a row of `times` of them for every event or
// resource; where each begins is said here alone.
ghost use Rattle.std.specs.Prelude.{◌≡◌, ◌+◌, ◌*◌, ◌≤◌, ◌<◌};
ghost use Rattle.scope.specs.Score.{layout_at};
ghost use Rattle.literals.specs.Variables.{Within, Based, literal_at};

use scope::Layout;

// The numbering of an instance's variables.
pub fn numbering(times: u32, events: u32, resources: u32) -> Layout
    requires { (times ≤ 125) × ((events ≤ 1024) × (resources ≤ 255)) }
    ensures { result ≡ layout_at times events resources }
{
    let cells = events * times;
    let both = 2 * cells;
    let others = both + resources * times;
    Layout {
        starts: cells,
        primary: both,
        uses: both,
        others,
    }
}

// The last variable before row k, from 1, of the block after so many variables.
pub fn base(before: u32, times: u32, k: u32) -> u32
    requires { (before ≤ 256000) × ((times ≤ 125) × Within 1024 k) }
    ensures { Based before times k result }
{
    before + (k - 1) * times
}

// The literal of the variable t after a base.
pub fn literal(base: u32, t: u32) -> u32
    requires { base + t < 2147483648 }
    ensures { result ≡ literal_at base t }
{
    2 * (base + t)
}
