// A refusal: why an input is not accepted, in the order and words of document 01's table, and the value that is given with it.
ghost use Rattle.std.specs.Prelude.{◌≡◌};
ghost use Rattle.scope.specs.Reason.{number_of};

use std::fmt;

// The rows of the table; each variant has its number there.
#[derive(Clone, Copy, PartialEq, Eq)]
pub enum Reason {
    // "number cut short, overlong or too large"
    BadNumber = 1,
    // "value outside its limit"
    OutsideLimit = 2,
    // "reference to nothing, or list not ascending"
    BadReference = 3,
    // "a counted list is longer than 255"
    ListTooLong = 4,
    // "lo > hi as written, or lo above the list's length"
    // kind 10: shortest above longest; kind 11: lo > hi alone
    BadBounds = 5,
    // "bytes left over"
    BytesLeft = 6,
    // "bound above 4,095"
    BoundTooHigh = 7,
    // "above 8,000,000 variables, tail included if used"
    TooManyVariables = 8,
    // "a lent output or store too short for the formula"
    TooShort = 9,
    // "wrong length", of a timetable or a model
    WrongLength = 10,
    // "a byte above 1", in a timetable or a model
    AboveOne = 11,
    // "not a timetable"
    NotATimetable = 12,
    // "a hard clause is false", in a model
    ClauseFalse = 13,
    // "misformed step: another first byte, a bad number, id or literal, a missing 0"
    BadStep = 14,
    // "hint or deletion not live"
    NotLive = 15,
    // "a hint, or the ending of the hints, breaks the rule"
    BadHint = 16,
    // "a non-empty clause doesn't fit the store"
    ClauseTooLong = 17,
    // "no empty clause, or bytes after it"
    BadEnd = 18,
    // "if both events are one", of kind 11 (order 4); at a constraint's end, before 5
    SameEvent = 19,
    // "line of another kind, literal out of range or malformed, or number after the 0", in a solver's text (order 5)
    BadSolverText = 20,
    // a variable "that is missing or given twice", in a solver's text
    NotGivenOnce = 21,
    // "a count, period or window that breaks these rules", in a calendar and its windows (order 6)
    BadCalendar = 22,
}

impl Reason {
    // Its number in the table.
    pub fn number(self) -> u8
        ensures { result ≡ number_of self }
    {
        self as u8
    }
}

#[derive(Clone, Copy)]
pub struct Refusal {
    pub reason: Reason,
    pub value: u64,
}

// Number and value.
impl fmt::Display for Refusal {
    fn fmt<W: fmt::Write>(&self, f: &mut fmt::Formatter<W>) -> fmt::Result {
        write!(f, "{} {}", self.reason.number(), self.value)
    }
}
