// The header "p wcnf V C top".
#![tactic(auto)]

ghost use Rattle.std.specs.Prelude.{◌≡◌, ◌≤◌, length, ◌++◌};
ghost use Rattle.scope.specs.Text.{decimal};
ghost use Rattle.digits.specs.Run.{Ran};
ghost use Rattle.digits.specs.Store.{out, put};
ghost use Rattle.header.specs.Header.{header_text};

// A number, and the bytes after it.
fn put_field(text: &mut [u8], at: usize, n: u64, end: &[u8]) -> usize
    ensures { Ran put (decimal n ++ end.now) (out at text.old) (out result text.new) }
{
    let a = digits::write_number(text, at, n);
    digits::put_all(text, a, end)
}

// The header at the start of the text.
pub fn write_header(text: &mut [u8], variables: u64, clauses: u64, top: u64) -> usize
    ensures { Ran put (header_text variables clauses top) (out 0 text.old) (out result text.new) }
{
    let a = digits::put_all(text, 0, b"p wcnf ");
    let b = put_field(text, a, variables, b" ");
    let c = put_field(text, b, clauses, b" ");
    put_field(text, c, top, b"\n")
}

// How many bytes the header takes.
pub fn header_size(variables: u64, clauses: u64, top: u64) -> usize
    ensures { (result ≡ length (header_text variables clauses top)) × (result ≤ 70) }
{
    let v = digits::number_size(variables);
    let c = digits::number_size(clauses);
    let t = digits::number_size(top);
    v + c + t + 10
}
