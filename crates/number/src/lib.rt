// Reading a number: groups of seven bits, lowest first, in the shortest form. The instance file and proofs are made of them.
// The work is one turn for each byte.
#![tactic(auto)]

ghost use Rattle.std.specs.Prelude.{◌≡◌};
ghost use Rattle.scope.specs.Answers.{said};
ghost use Rattle.scope.specs.Number.{number as number_at, limited as limited_at, reference as reference_at};

use scope::{Parsed, Reason, Refusal};

// The number at an offset.
pub fn number_at(s: &[u8], at: usize) -> Parsed<u32>
    ensures { said result ≡ number_at s.now at }
{
    let bad = Refusal {
        reason: Reason::BadNumber,
        value: at as u64,
    };
    if s.len() <= at {
        return Err(bad);
    }
    let first = u64::from(s[at]);
    if first < 128 {
        return Ok((first as u32, at + 1));
    }
    let mut value = first % 128;
    let mut scale: u64 = 128;
    for i in at + 1..s.len() {
        let b = u64::from(s[i]);
        value += b % 128 * scale;
        if b == 0 {
            return Err(bad);
        }
        if 4294967295 < value {
            return Err(bad);
        }
        if b < 128 {
            return Ok((value as u32, i + 1));
        }
        // a further group would count 2^32 or more
        if 33554431 < scale {
            return Err(bad);
        }
        scale *= 128;
    }
    Err(bad)
}

// The same; a number of one byte is read at once, without a call.
pub fn near(s: &[u8], at: usize) -> Parsed<u32>
    ensures { said result ≡ number_at s.now at }
{
    if s.len() <= at {
        return number_at(s, at);
    }
    let first = u32::from(s[at]);
    if first < 128 {
        return Ok((first, at + 1));
    }
    number_at(s, at)
}

// The number at an offset, from lo to hi.
pub fn limited(s: &[u8], at: usize, lo: u32, hi: u32) -> Parsed<u32>
    ensures { said result ≡ limited_at lo hi s.now at }
{
    // no `?`: compiled, it takes each number apart and puts it together again (measured)
    let (v, next) = match near(s, at) {
        Ok(found) => found,
        Err(bad) => return Err(bad),
    };
    let outside = Refusal {
        reason: Reason::OutsideLimit,
        value: at as u64,
    };
    if v < lo {
        return Err(outside);
    }
    if hi < v {
        return Err(outside);
    }
    Ok((v, next))
}

// A reference to one of n things, above the one before it.
pub fn reference(s: &[u8], at: usize, before: u32, n: u32) -> Parsed<u32>
    ensures { said result ≡ reference_at before n s.now at }
{
    // no `?`: compiled, it takes each number apart and puts it together again (measured)
    let (v, next) = match near(s, at) {
        Ok(found) => found,
        Err(bad) => return Err(bad),
    };
    let bad = Refusal {
        reason: Reason::BadReference,
        value: at as u64,
    };
    if v <= before {
        return Err(bad);
    }
    if n < v {
        return Err(bad);
    }
    Ok((v, next))
}
