// The length of the text, with no byte of it written.
ghost use Rattle.std.specs.Prelude.{◌≡◌, ◌*◌, ◌≤◌, length};
ghost use Rattle.scope.specs.Text.{text};
ghost use Rattle.scope.specs.Answers.{means};
ghost use Rattle.scope.specs.Operations.{text_size_of};
ghost use Rattle.tables.specs.Room.{group_room};
ghost use Rattle.instance.specs.Answers.{instance_of};
ghost use Rattle.text.specs.Ready.{Ready};

use crate::lines::run_lines;
use constraint::Head;
use header::header_size;
use scope::Refusal;
use sink::Mode;
use sizes::measure;
use sizing::Size;

// For a file that was sized: the header's length and the lines', by one run over the formula.
pub fn text_length(
    file: &[u8],
    head: Head,
    z: Size,
    durations: &[u8],
    resources: &[u8],
    groups: &[u8],
    list: &mut [u16],
) -> usize
    requires { Ready file.now durations.now resources.now groups.now list.old head z }
    ensures { result ≡ length (text (instance_of file.now durations.now resources.now groups.now head)) }
{
    let top = z.weight + 1;
    let mut none = [0u8; 1];
    let lines = run_lines(
        Mode::Measure,
        top,
        &mut none,
        0,
        file,
        head,
        durations,
        resources,
        groups,
        list,
    );
    let clauses = z.clauses + z.units;
    header_size(z.variables, clauses, top) + lines
}

// The text's length, with a table for the groups that has the rows that the file may need.
fn text_size_in(file: &[u8], groups: &mut [u8]) -> Result<u64, Refusal>
    requires { group_room file.now * 126 ≤ length groups.old }
    ensures { means result ≡ text_size_of file.now }
{
    let mut durations = tables::durations();
    let mut resources = tables::resource_rows();
    let mut list = tables::list();
    let (head, z) = measure(file, &mut durations, &mut resources, groups, &mut list)?;
    let n = text_length(file, head, z, &durations, &resources, groups, &mut list);
    Ok(n as u64)
}

// How many bytes the text takes, or refusals 1 to 6, 8, 19 and 22.
pub fn text_size(file: &[u8]) -> Result<u64, Refusal>
    ensures { means result ≡ text_size_of file.now }
{
    tables::with_groups(file, |groups| text_size_in(file, groups))
}
