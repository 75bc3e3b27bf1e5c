// Why a call is refused.
ghost use Rattle.std.specs.Prelude.{◌≡◌, Some};
ghost use Rattle.std.specs.Fmt.{decimal};
ghost use Rattle.bus.specs.Refused.{number};

use std::error::Error;
use std::fmt;

// Each with the number by which users know it.
#[derive(Clone, Copy, PartialEq, Eq, Debug)]
pub enum Refusal {
    // an identifier above 2,047
    Identifier = 1,
    // a node above 15
    Node = 2,
    // more than 8 data bytes
    Bytes = 3,
    // a period or gap of 0 or above 1,048,576
    Period = 4,
    // an offset that is not below its period
    Offset = 5,
    // a jitter above 1,048,576
    Jitter = 6,
    // a due time of 0 or above 4,194,304
    Due = 7,
    // not a lawful line
    Line = 8,
    // a text that is too long
    Text = 9,
    // a question outside its range
    Question = 10,
    // a delay above 1,048,576
    Delay = 11,
    // spans that do not rise, or rise above 8,388,608
    Spans = 12,
    // the identifier is already held
    Held = 31,
    // the identifier is not held
    NotHeld = 32,
    // 64 are held already
    Full = 33,
    // a cycle above 4,194,304 would arise
    Cycle = 34,
    // a reach above 16,777,216 would arise
    Reach = 35,
}

impl Refusal {
    pub fn number(self) -> u32
        ensures { result ≡ number self }
    {
        self as u32
    }
}

// The number, in decimal.
impl fmt::Display for Refusal {
    ghost output = { λ refusal. Some (decimal (number refusal)) };

    fn fmt<W: fmt::Write>(&self, f: &mut fmt::Formatter<W>) -> fmt::Result {
        write!(f, "{}", self.number())
    }
}

impl Error for Refusal {}
