// The text, written into a lent output.
ghost use Rattle.std.specs.Prelude.{◌≡◌, ◌*◌, ◌≤◌, length};
ghost use Rattle.scope.specs.Text.{text};
ghost use Rattle.scope.specs.Answers.{means};
ghost use Rattle.scope.specs.Operations.{text_of};
ghost use Rattle.tables.specs.Room.{group_room};
ghost use Rattle.instance.specs.Answers.{instance_of};
ghost use Rattle.sink.specs.Run.{Ran, out, put};
ghost use Rattle.text.specs.Ready.{Ready};
ghost use Rattle.text.specs.Written.{written, text_in};

use crate::lines::run_lines;
use crate::size::text_length;
use constraint::Head;
use header::write_header;
use scope::{Reason, Refusal};
use sink::Mode;
use sizes::measure;
use sizing::Size;

// Header, hard lines, soft lines.
fn put_text(
    bytes: &mut [u8],
    file: &[u8],
    head: Head,
    z: Size,
    durations: &[u8],
    resources: &[u8],
    groups: &[u8],
    list: &mut [u16],
) -> usize
    requires { Ready file.now durations.now resources.now groups.now list.old head z }
    ensures { Ran put (text (instance_of file.now durations.now resources.now groups.now head))
        (out 0 bytes.old) (out result bytes.new) }
{
    let top = z.weight + 1;
    let clauses = z.clauses + z.units;
    let a = write_header(bytes, z.variables, clauses, top);
    let b = run_lines(
        Mode::Text,
        top,
        bytes,
        a,
        file,
        head,
        durations,
        resources,
        groups,
        list,
    );
    run_lines(
        Mode::SoftText,
        top,
        bytes,
        b,
        file,
        head,
        durations,
        resources,
        groups,
        list,
    )
}

// The length is known before the first byte is written.
fn fit_text(
    out: &mut [u8],
    file: &[u8],
    head: Head,
    z: Size,
    durations: &[u8],
    resources: &[u8],
    groups: &[u8],
    list: &mut [u16],
) -> Result<u64, Refusal>
    requires { Ready file.now durations.now resources.now groups.now list.old head z }
    ensures { (means result, out.new)
        ≡ written (text_in (instance_of file.now durations.now resources.now groups.now head)
        (length out.old)) out.old }
{
    let n = text_length(file, head, z, durations, resources, groups, list);
    if n <= out.len() {
        put_text(out, file, head, z, durations, resources, groups, list);
        return Ok(n as u64);
    }
    Err(Refusal {
        reason: Reason::TooShort,
        value: 0,
    })
}

// The text, with a table for the groups that has the rows that the file may need.
fn text_in(file: &[u8], out: &mut [u8], groups: &mut [u8]) -> Result<u64, Refusal>
    requires { group_room file.now * 126 ≤ length groups.old }
    ensures { (means result, out.new) ≡ written (text_of file.now (length out.old)) out.old }
{
    let mut durations = tables::durations();
    let mut resources = tables::resource_rows();
    let mut list = tables::list();
    let (head, z) = measure(file, &mut durations, &mut resources, groups, &mut list)?;
    fit_text(
        out, file, head, z, &durations, &resources, groups, &mut list,
    )
}

// The text in the first bytes of the output, or refusals 1 to 6, 8, 9, 19 and 22, with no byte changed. The table for the groups is
// chosen here and not by tables::with_groups: tried, and a caller is not told what a closure leaves in another `&mut`.
pub fn text(file: &[u8], out: &mut [u8]) -> Result<u64, Refusal>
    ensures { (means result, out.new) ≡ written (text_of file.now (length out.old)) out.old }
{
    if tables::dated(file) {
        let mut groups = tables::window_rows();
        return text_in(file, out, &mut groups);
    }
    let mut groups = tables::group_rows();
    text_in(file, out, &mut groups)
}
