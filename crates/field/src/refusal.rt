// Why a line has no diagonal.
use crate::sides::Sides;
use std::error::Error;
use std::fmt;

#[derive(Clone, Copy, Debug, PartialEq, Eq)]
pub enum Refusal {
    /// The line is not two whole numbers with blanks between them.
    NotPair,
    /// A side is 0.
    NoSide,
    /// A side is too long for the sum of the squares to be exact.
    TooLong,
}

impl fmt::Display for Refusal {
    fn fmt<W: fmt::Write>(&self, f: &mut fmt::Formatter<W>) -> fmt::Result {
        match self {
            Refusal::NotPair => write!(f, "not two whole numbers"),
            Refusal::NoSide => write!(f, "a side of 0"),
            Refusal::TooLong => write!(
                f,
                "a side above {} mm: the squares would not be exact",
                Sides::LONGEST
            ),
        }
    }
}

impl Error for Refusal {}
