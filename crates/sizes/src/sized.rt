// A file read into tables, with the sizes of its formula: what every operation on the formula starts with.
ghost use Rattle.std.specs.Prelude.{◌≡◌};
ghost use Rattle.instance.specs.Stores.{Stores};
ghost use Rattle.sizing.specs.Sums.{sum, Fits64};
ghost use Rattle.sizes.specs.Measured.{judged_size, judged_total, measured_as, bounded_as};

use crate::whole::whole_size;
use constraint::Head;
use instance::read;
use limits::{within_bound, within_limit};
use part_sizes::Total;
use scope::{FormulaSize, Reason, Refusal};
use sizing::Size;
use sizing::blocks::stored_size;
use sizing::sums::plus;

// 8 without the tail.
fn judge_size(head: Head, z: Size) -> Result<(Head, Size), Refusal>
    ensures { result ≡ judged_size head z }
{
    if within_limit(z.variables) {
        return Ok((head, z));
    }
    Err(Refusal {
        reason: Reason::TooManyVariables,
        value: 0,
    })
}

// 8 with the tail.
fn judge_total(head: Head, t: Total) -> Result<(Head, Size, FormulaSize), Refusal>
    requires { Fits64 (sum t.formula t.tail) }
    ensures { result ≡ judged_total head t }
{
    let all = plus(t.formula, t.tail);
    let z = stored_size(all);
    if within_limit(z.variables) {
        return Ok((head, t.formula, z));
    }
    Err(Refusal {
        reason: Reason::TooManyVariables,
        value: 0,
    })
}

// For operations without a bound: the formula's size without its tail, or refusals 1 to 6, 8, 19 and 22.
pub fn measure(
    file: &[u8],
    durations: &mut [u8],
    resources: &mut [u8],
    groups: &mut [u8],
    list: &mut [u16],
) -> Result<(Head, Size), Refusal>
    requires { Stores file.now durations.old resources.old groups.old list.old }
    ensures { measured_as file.now durations.new resources.new groups.new result }
{
    let head = read(file, durations, resources, groups, list)?;
    let t = whole_size(file, head, durations, resources, groups, list, 0);
    judge_size(head, t.formula)
}

// For operations with a bound: the formula's size without its tail, and with the tail; or refusals 1 to 8, 19 and 22.
pub fn measure_bound(
    file: &[u8],
    bound: u64,
    durations: &mut [u8],
    resources: &mut [u8],
    groups: &mut [u8],
    list: &mut [u16],
) -> Result<(Head, Size, FormulaSize), Refusal>
    requires { Stores file.now durations.old resources.old groups.old list.old }
    ensures { bounded_as file.now bound durations.new resources.new groups.new result }
{
    let head = read(file, durations, resources, groups, list)?;
    if !within_bound(bound) {
        return Err(Refusal {
            reason: Reason::BoundTooHigh,
            value: bound,
        });
    }
    let t = whole_size(file, head, durations, resources, groups, list, bound);
    judge_total(head, t)
}
