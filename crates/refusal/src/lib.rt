// The refusals, an error enum: what each means, and the number under which the paper lists it.
#![tactic(auto)]

ghost use Rattle.std.specs.Prelude.{◌≡◌};
ghost use Rattle.refusal.specs.Numbers.{number_of, number_or_0};

use std::error::Error;
use std::fmt;

#[derive(Clone, Copy, Debug, PartialEq, Eq)]
pub enum Refusal {
    // Of the table file and its records.
    CutShort,
    NotDue,
    CountOutOfRange,
    FieldOutOfRange,
    NumberNotRising,
    SizeOutOfRange,
    BytesLeft,
    NoBounds,
    OutputTooShort,
    // Of a port and its reports.
    PortNotFit,
    PastLastTick,
    BeforeClock,
    NoSuchLine,
    LengthOutOfRange,
    LineNotFree,
    ListTooShort,
    // Of networks A and B.
    BothEmpty,
    BeforeLastTaken,
    // Of a batch.
    NotReports,
    AnswersTooShort,
    // Of the next switch, of a line, of the jitter left, of the handful.
    JitterTooLarge,
    LineBeyondCount,
    LineOversold,
    NoSuchLink,
    NoJitterFits,
    HasBounds,
}

impl Refusal {
    #[tactic(auto, unfolding(crate::specs::Numbers::number_of))]
    pub fn number(self) -> u32
        ensures { result ≡ number_of self }
    {
        match self {
            Refusal::CutShort => 1,
            Refusal::NotDue => 2,
            Refusal::CountOutOfRange => 3,
            Refusal::FieldOutOfRange => 4,
            Refusal::NumberNotRising => 5,
            Refusal::SizeOutOfRange => 6,
            Refusal::BytesLeft => 7,
            Refusal::NoBounds => 8,
            Refusal::OutputTooShort => 9,
            Refusal::PortNotFit => 10,
            Refusal::PastLastTick => 11,
            Refusal::BeforeClock => 12,
            Refusal::NoSuchLine => 13,
            Refusal::LengthOutOfRange => 14,
            Refusal::LineNotFree => 15,
            Refusal::ListTooShort => 16,
            Refusal::BothEmpty => 17,
            Refusal::BeforeLastTaken => 18,
            Refusal::NotReports => 19,
            Refusal::AnswersTooShort => 20,
            Refusal::JitterTooLarge => 21,
            Refusal::LineBeyondCount => 22,
            Refusal::LineOversold => 23,
            Refusal::NoSuchLink => 24,
            Refusal::NoJitterFits => 25,
            Refusal::HasBounds => 26,
        }
    }
}

impl From<Refusal> for u32 {
    ghost from_gives = { λ r n. n ≡ number_of r };

    fn from(refusal: Refusal) -> u32 {
        refusal.number()
    }
}

impl fmt::Display for Refusal {
    fn fmt<W: fmt::Write>(&self, f: &mut fmt::Formatter<W>) -> fmt::Result {
        write!(f, "refused {}", self.number())
    }
}

impl Error for Refusal {}

// 0 where nothing is refused: what a host in C and the lists of a batch are told.
pub fn number_or_0<T: Drop>(outcome: Result<T, Refusal>) -> u32
    ensures { result ≡ number_or_0 outcome }
{
    match outcome {
        Ok(_) => 0,
        Err(refusal) => refusal.number(),
    }
}
