// Why an operation refuses (documents 01 and 02, "Operations and what each refuses"): an error enum whose variants have the documents'
// numbers.
#![tactic(auto)]

ghost use Rattle.std.specs.Prelude.{◌≡◌};
ghost use Rattle.refusal.specs.Refusal.{number};

use std::error::Error;
use std::fmt;

#[derive(Clone, Copy, Debug, PartialEq, Eq)]
pub enum Refusal {
    RequestLine = 1,
    Inputs = 2,
    Table = 3,
    Switches = 4,
    SeriesBound = 5,
    BufferShort = 6,
    LiteralsShort = 7,
    PairsShort = 8,
    AnswerLine = 9,
    AnswerVariable = 10,
    AnswerIncomplete = 11,
    AnswerClauses = 12,
    NetworkForm = 13,
    ValuesShort = 14,
    TextLong = 15,
    LineForm = 16,
    LineId = 17,
    LineLiteral = 18,
    NotStanding = 19,
    NotUnit = 20,
    HintsSpent = 21,
    AddedShort = 22,
    TextEnds = 23,
    RowTwice = 24,
}

impl Refusal {
    // The documents' number.
    pub fn number(self) -> u8
        ensures { result ≡ number self }
    {
        self as u8
    }
}

impl From<Refusal> for u32 {
    ghost from_gives = { λ refusal x. x ≡ number refusal };

    fn from(refusal: Refusal) -> u32 {
        u32::from(refusal.number())
    }
}

impl fmt::Display for Refusal {
    fn fmt<W: fmt::Write>(&self, f: &mut fmt::Formatter<W>) -> fmt::Result {
        write!(f, "{}", self.number())
    }
}

impl Error for Refusal {}
