// Numbers of up to seven digits, turned into bytes once and stored as often as they are wanted.
ghost use Rattle.std.specs.Prelude.{◌≡◌, [], ◌∷◌, ◌++◌, ◌+◌, ◌/◌, ◌≤◌, ◌<◌, length};
ghost use Rattle.std.proofs.lemmas.List.Edits.{sets};
ghost use Rattle.scope.specs.Text.{decimal, space, literal_text};
ghost use Rattle.digits.specs.Run.{Ran};
ghost use Rattle.digits.specs.Store.{out, put};
ghost use Rattle.digits.specs.Decimal.{last_digits};
ghost use Rattle.digits.specs.Spelled.{four_bytes, Spelt};

// A number below ten million, and its digits with a space after them: their first four bytes and their last four, which may be
// some of the first, the lowest byte of each first, and how many they are. Where they are two or three, all stand in the first.
#[derive(Clone, Copy)]
pub struct Spelled {
    pub value: u32,
    pub first: u32,
    pub last: u32,
    pub len: usize,
    pub ghost spelt: { Spelt value first last len },
}

// Four bytes as one number.
fn four(a: u32, b: u32, c: u32, d: u32) -> u32
    requires { (a < 256) × (b < 256) × (c < 256) × (d < 256) }
    ensures { four_bytes result ≡ a ∷ b ∷ c ∷ d ∷ [] }
{
    a + 256 * b + 65536 * c + 16777216 * d
}

// The bytes of four digits.
fn four_digits(u: u32) -> u32
    ensures { four_bytes result ≡ last_digits 4 u }
{
    let high = u / 100 % 100;
    let low = u % 100;
    four(48 + high / 10, 48 + high % 10, 48 + low / 10, 48 + low % 10)
}

// The bytes of a number of one or two digits.
fn spell_short(v: u32) -> Spelled
    requires { v < 100 }
    ensures { result.value ≡ v }
{
    if v < 10 {
        let first = four(48 + v, 32, 0, 0);
        return Spelled {
            value: v,
            first,
            last: 0,
            len: 2,
        };
    }
    let first = four(48 + v / 10, 48 + v % 10, 32, 0);
    Spelled {
        value: v,
        first,
        last: 0,
        len: 3,
    }
}

// A number's bytes.
pub fn spell(v: u32) -> Spelled
    requires { v < 10000000 }
    ensures { result.value ≡ v }
{
    if v < 100 {
        return spell_short(v);
    }
    let low = v % 100;
    let last = four(48 + v / 100 % 10, 48 + low / 10, 48 + low % 10, 32);
    if v < 1000 {
        return Spelled {
            value: v,
            first: last,
            last,
            len: 4,
        };
    }
    if v < 10000 {
        return Spelled {
            value: v,
            first: four_digits(v),
            last,
            len: 5,
        };
    }
    if v < 100000 {
        return Spelled {
            value: v,
            first: four_digits(v / 10),
            last,
            len: 6,
        };
    }
    if v < 1000000 {
        return Spelled {
            value: v,
            first: four_digits(v / 100),
            last,
            len: 7,
        };
    }
    Spelled {
        value: v,
        first: four_digits(v / 1000),
        last,
        len: 8,
    }
}

// The number after one: mostly only its last digit is another. That digit stands in the third of the last four bytes, and in a
// number of four digits in the fourth of the first four too.
pub fn following(n: Spelled) -> Spelled
    requires { n.value + 1 < 10000000 }
    ensures { result.value ≡ n.value + 1 }
{
    let value = n.value + 1;
    if n.value < 1000 {
        return spell(value);
    }
    if 57 <= n.last / 65536 % 256 {
        return spell(value);
    }
    let last = n.last + 65536;
    if n.value < 10000 {
        return Spelled {
            value,
            first: n.first + 16777216,
            last,
            len: n.len,
        };
    }
    Spelled {
        value,
        first: n.first,
        last,
        len: n.len,
    }
}

// Four bytes, where there is room.
fn put_four(text: &mut [u8], at: usize, b: u32)
    requires { at + 4 ≤ length text.old }
    ensures { text.new ≡ sets text.old at (four_bytes b) }
{
    text[at] = (b % 256) as u8;
    text[at + 1] = (b / 256 % 256) as u8;
    text[at + 2] = (b / 65536 % 256) as u8;
    text[at + 3] = (b / 16777216 % 256) as u8;
}

// A number of one or two digits and a space.
fn put_short(text: &mut [u8], at: usize, n: Spelled) -> usize
    requires { (n.len < 4) × (at + 8 ≤ length text.old) }
    ensures ran { Ran put (decimal n.value ++ space) (out at text.old) (out result text.new) }
    ensures upper_bound { result ≤ at + 8 }
{
    text[at] = (n.first % 256) as u8;
    text[at + 1] = (n.first / 256 % 256) as u8;
    let end = at + n.len;
    text[end - 1] = 32;
    end
}

// A number and a space, where there is room.
pub fn put_spelled(text: &mut [u8], at: usize, n: Spelled) -> usize
    requires { at + 8 ≤ length text.old }
    ensures ran { Ran put (decimal n.value ++ space) (out at text.old) (out result text.new) }
    ensures upper_bound { result ≤ at + 8 }
{
    if n.len < 4 {
        return put_short(text, at, n);
    }
    put_four(text, at, n.first);
    let end = at + n.len;
    put_four(text, end - 4, n.last);
    end
}

// A literal of the number, where there is room. A sign is written in any case, and a digit over it where it is not wanted.
pub fn put_spelled_literal(text: &mut [u8], at: usize, l: u32, n: Spelled) -> usize
    requires { (n.value ≡ l / 2) × (at + 9 ≤ length text.old) }
    ensures ran { Ran put (literal_text l) (out at text.old) (out result text.new) }
    ensures upper_bound { result ≤ at + 9 }
{
    text[at] = 45;
    put_spelled(text, at + (l % 2) as usize, n)
}
