#![tactic(auto)]
// Why a call is refused: one enum for all calls, and what a call hands back beside it.
ghost use Rattle.std.specs.Prelude.{◌≡◌};
ghost use Rattle.refusals.specs.Refusals.{refusal_number, answer_number};

use std::error::Error;
use std::fmt;

/// Why a call is refused.
#[derive(Clone, Copy, Debug, PartialEq, Eq)]
pub enum Refusal {
    /// 1: kernel above 3.
    UnknownKernel,
    /// 2: ratio not finite, or below zero.
    BadRatio,
    /// 3: output rate 0.
    ZeroRate,
    /// 4: word 0 or above 2^34: input rate next to 0, or above 4 times the output rate.
    WordOutOfRange,
    /// 5: state not started or out of range; image, frame or marks of another length or out of range; or queue buffer above 16,384 samples.
    BadState,
    /// 6: no byte 10 in the first 270 bytes, or in those that were lent.
    NoLineEnd,
    /// 7: first letter not the one called for, or line empty.
    WrongLetter,
    /// 8: another character than 0-9, A-F after the letter.
    NotADigit,
    /// 9: K line not of 18 digits, or D line under 12, count 0 or above 64, or not 12 + 4 times count.
    WrongLength,
    /// 10: check of the line fails.
    WrongCheck,
    /// 11: sample buffer shorter than the count.
    SmallBuffer,
    /// 12: sample buffer of odd length or above 65,536 bytes, or queue buffer of odd length.
    BadBuffer,
    /// 13: lane count 0 or above 16, or samples of input or places of output not a multiple of it.
    BadLanes,
    /// 14: no samples to write, or above 64, or line buffer shorter than the line.
    Unwritable,
    /// 15: sequence number not the next.
    NotNext,
    /// 16: samples held and samples offered together more than the queue buffer has.
    QueueFull,
}

impl Refusal {
    /// The number by which a host knows the refusal: 1 to 16.
    pub fn number(self) -> u8
        ensures { result ≡ refusal_number self }
    {
        match self {
            Self::UnknownKernel => 1,
            Self::BadRatio => 2,
            Self::ZeroRate => 3,
            Self::WordOutOfRange => 4,
            Self::BadState => 5,
            Self::NoLineEnd => 6,
            Self::WrongLetter => 7,
            Self::NotADigit => 8,
            Self::WrongLength => 9,
            Self::WrongCheck => 10,
            Self::SmallBuffer => 11,
            Self::BadBuffer => 12,
            Self::BadLanes => 13,
            Self::Unwritable => 14,
            Self::NotNext => 15,
            Self::QueueFull => 16,
        }
    }
}

impl fmt::Display for Refusal {
    fn fmt<W: fmt::Write>(&self, f: &mut fmt::Formatter<W>) -> fmt::Result {
        f.write_str(match self {
            Self::UnknownKernel => "kernel above 3",
            Self::BadRatio => "ratio not finite, or below zero",
            Self::ZeroRate => "output rate 0",
            Self::WordOutOfRange =>
                "word 0 or above 2^34: input rate next to 0, or above 4 times the output rate",
            Self::BadState =>
                "state not started or out of range; image, frame or marks of another length or out of range; or queue buffer above 16,384 samples",
            Self::NoLineEnd => "no byte 10 in the first 270 bytes, or in those that were lent",
            Self::WrongLetter => "first letter not the one called for, or line empty",
            Self::NotADigit => "another character than 0-9, A-F after the letter",
            Self::WrongLength =>
                "K line not of 18 digits, or D line under 12, count 0 or above 64, or not 12 + 4 times count",
            Self::WrongCheck => "check of the line fails",
            Self::SmallBuffer => "sample buffer shorter than the count",
            Self::BadBuffer =>
                "sample buffer of odd length or above 65,536 bytes, or queue buffer of odd length",
            Self::BadLanes =>
                "lane count 0 or above 16, or samples of input or places of output not a multiple of it",
            Self::Unwritable =>
                "no samples to write, or above 64, or line buffer shorter than the line",
            Self::NotNext => "sequence number not the next",
            Self::QueueFull =>
                "samples held and samples offered together more than the queue buffer has",
        })
    }
}

impl Error for Refusal {}

/// What was lent or handed over, as it came, and why the call was refused.
#[derive(Clone, Copy, Debug, PartialEq, Eq)]
pub struct Refused<T> {
    pub value: T,
    pub refusal: Refusal,
}

/// What a call for a host returns: 0, or the number of its refusal.
pub fn answer(outcome: Result<(), Refusal>) -> u32
    ensures { result ≡ answer_number outcome }
{
    match outcome {
        Ok(()) => 0,
        Err(refusal) => refusal.number() as u32,
    }
}
