// The operation that evaluates a model. It asks nothing of the caller.
ghost use Rattle.std.specs.Prelude.{◌≡◌, ◌*◌, ◌≤◌, length};
ghost use Rattle.tables.specs.Room.{group_room};
ghost use Rattle.instance.specs.Start.{SizesIn};
ghost use Rattle.instance.specs.Stores.{Stores};
ghost use Rattle.sizes.specs.Measured.{SizedBy};
ghost use Rattle.model.specs.Answers.{EvaluatedAs};

use crate::size::form_of;
use crate::truth::truth_of;
use constraint::Head;
use evaluation::{Evaluation, judge};
use sizes::measure;
use sizing::Size;

// How many bytes hold Y and S.
fn part_size(head: Head) -> usize
    requires { SizesIn head.times head.events head.resources }
    ensures { result ≡ 2 * (head.events * head.times) }
{
    let cells = head.events as usize * head.times as usize;
    2 * cells
}

// A model for a file that was read and sized: 10, 11, then 13.
pub fn evaluate_read(
    file: &[u8],
    model: &[u8],
    head: Head,
    size: Size,
    durations: &[u8],
    resources: &[u8],
    groups: &[u8],
    list: &mut [u16],
) -> Evaluation
    requires { SizedBy file.now durations.now resources.now groups.now head size × Stores file.now durations.now resources.now groups.now list.old }
    ensures { EvaluatedAs file.now model.now result }
{
    form_of(model, size.variables)?;
    let s = truth_of(file, model, head, size, durations, resources, groups, list);
    let part = part_size(head);
    judge(s.bad, s.lost, part)
}

// The evaluation, with a table for the groups that has the rows that the file may need.
fn evaluate_in(file: &[u8], model: &[u8], groups: &mut [u8]) -> Evaluation
    requires { group_room file.now * 126 ≤ length groups.old }
    ensures { EvaluatedAs file.now model.now result }
{
    let mut durations = tables::durations();
    let mut resources = tables::resource_rows();
    let mut list = tables::list();
    let (head, size) = measure(file, &mut durations, &mut resources, groups, &mut list)?;
    evaluate_read(
        file, model, head, size, &durations, &resources, groups, &mut list,
    )
}

// The length of the part with Y and S and the falsified soft weight, or refusals 1 to 6, 8, 10, 11, 13, 19 and 22. One run over the
// clauses serves both; the work is linear in the formula. It is a call of its own, so that its tables are gone from the stack when a
// caller goes on.
#[inline(never)]
pub fn evaluate(file: &[u8], model: &[u8]) -> Evaluation
    ensures { EvaluatedAs file.now model.now result }
{
    tables::with_groups(file, |groups| evaluate_in(file, model, groups))
}
