// The operation that reads what a solver printed. It asks nothing of the caller.
ghost use Rattle.std.specs.Prelude.{◌≡◌, ◌*◌, ◌≤◌, length, replicate};
ghost use Rattle.tables.specs.Room.{group_room};
ghost use Rattle.instance.specs.Stores.{Stores};
ghost use Rattle.sizes.specs.Measured.{SizedBy};
ghost use Rattle.solver_text.specs.Read.{ReadAs, ReadInto};

use crate::handover::hand_over;
use constraint::Head;
use evaluation::Evaluation;
use model::evaluate_read;
use sizes::measure;
use sizing::Size;
use solver_model::fill;

// A text for a file that was read and sized: 9, 10, 20 and 21, then 13 of the model at the front of the store.
fn read_sized(
    file: &[u8],
    output: &[u8],
    model_length: usize,
    store: &mut [u8],
    head: Head,
    size: Size,
    durations: &[u8],
    resources: &[u8],
    groups: &[u8],
    list: &mut [u16],
) -> Evaluation
    requires { SizedBy file.now durations.now resources.now groups.now head size × Stores file.now durations.now resources.now groups.now list.old
        × (store.old ≡ replicate (length store.old) 0) }
    ensures { ReadAs file.now output.now model_length store.old store.new result }
{
    fill(output, model_length, size.variables, store)?;
    let model = &store[..model_length];
    evaluate_read(file, model, head, size, durations, resources, groups, list)
}

// The same with the file's own refusals and 8 before; the store holds zeros, and the groups' table has the rows that the file may need.
fn read_zeroed_in(
    file: &[u8],
    output: &[u8],
    model_length: usize,
    store: &mut [u8],
    groups: &mut [u8],
) -> Evaluation
    requires file_in_bounds { group_room file.now * 126 ≤ length groups.old }
    requires store_value { store.old ≡ replicate (length store.old) 0 }
    ensures { ReadAs file.now output.now model_length store.old store.new result }
{
    let mut durations = tables::durations();
    let mut resources = tables::resource_rows();
    let mut list = tables::list();
    let (head, size) = measure(file, &mut durations, &mut resources, groups, &mut list)?;
    read_sized(
        file,
        output,
        model_length,
        store,
        head,
        size,
        &durations,
        &resources,
        groups,
        &mut list,
    )
}

// The same, with the table that the file needs, chosen here and not by tables::with_groups: tried, and a caller is not told what a closure leaves in another `&mut`.
fn read_zeroed(file: &[u8], output: &[u8], model_length: usize, store: &mut [u8]) -> Evaluation
    requires { store.old ≡ replicate (length store.old) 0 }
    ensures { ReadAs file.now output.now model_length store.old store.new result }
{
    if tables::dated(file) {
        let mut groups = tables::window_rows();
        return read_zeroed_in(file, output, model_length, store, &mut groups);
    }
    let mut groups = tables::group_rows();
    read_zeroed_in(file, output, model_length, store, &mut groups)
}

// The lent model is filled from the text and decoded: the length of its part with Y and S and its cost; or 1 to 6, 8, 9, 10, 13 and
// 19 to 22, and the lent model as it was. The literals are gathered in the store, which is zero afterwards. One pass over the text.
pub fn solver_text(file: &[u8], output: &[u8], model: &mut [u8], store: &mut [u8]) -> Evaluation
    ensures { ReadInto file.now output.now model.old store.old model.new store.new result }
{
    store.fill(0);
    let e = read_zeroed(file, output, model.len(), store);
    hand_over(e, store, model);
    store.fill(0);
    e
}
