// A line of input: two whole numbers with blanks between them.
ghost use Rattle.std.specs.Prelude.{◌≡◌, ℕ, ◌+◌, ◌-◌, ◌<◌, ◌≤◌, Some, None, if◌then◌else◌, fold, MatchResult};
ghost use Rattle.std.specs.Char.{is_ascii_digit};
ghost use Rattle.field.specs.Field.{longest};
ghost use Rattle.field.specs.Pair.{Writes, Refused};

use crate::refusal::Refusal;
use crate::sides::Sides;
use std::marker::Model;

/// What an ASCII digit stands for.
#[derive(Clone, Copy)]
struct Digit(u8);

impl Model for Digit {
    ghost Value = { ℕ };

    ghost view = { λ d. d.0 };

    ghost invariant = { λ d. d.0 < 10 };

    ghost inverse = { λ n. record { 0 = n } };
}

impl Digit {
    fn of(byte: u8) -> Option<Self>
        ensures { result ≡ (if is_ascii_digit byte then Some (byte - 48) else None) }
    {
        match byte {
            b'0'..=b'9' => Some(Digit(byte - b'0')),
            _ => None,
        }
    }
}

// `Digit` and this are two types, by their bounds.
/// A number as far as its digits are read. Past the longest side it stays one above it.
#[derive(Clone, Copy)]
struct Capped(u64);

impl Model for Capped {
    ghost Value = { ℕ };

    ghost view = { λ n. n.0 };

    ghost invariant = { λ n. n.0 ≤ longest + 1 };

    ghost inverse = { λ n. record { 0 = n } };
}

impl Capped {
    ghost use Rattle.field.specs.Lines.{longer};

    // Private, with a clause; no From is plainer.
    fn from_digit(digit: Digit) -> Self
        ensures { result ≡ digit }
    {
        Capped(u64::from(digit.0))
    }

    fn push_digit(self, digit: Digit) -> Self
        ensures { result ≡ longer self digit }
    {
        Capped((self.0 * 10 + u64::from(digit.0)).min(Sides::LONGEST + 1))
    }

    fn value(self) -> u64
        ensures { result ≡ self }
    {
        self.0
    }
}

/// How far a line has been read, with the numbers so far.
#[derive(Clone, Copy)]
enum Reading {
    Before,
    First(Capped),
    Between(Capped),
    Second(Capped, Capped),
    After(Capped, Capped),
    Broken,
}

impl Reading {
    ghost use Rattle.field.specs.Lines.{after_blank, after_digit, after_byte, pair_of};

    fn after_blank(self) -> Self
        ensures { result ≡ after_blank self }
    {
        match self {
            Reading::First(a) => Reading::Between(a),
            Reading::Second(a, b) => Reading::After(a, b),
            other => other,
        }
    }

    fn after_digit(self, digit: Digit) -> Self
        ensures { result ≡ after_digit self digit }
    {
        match self {
            Reading::Before => Reading::First(Capped::from_digit(digit)),
            Reading::First(a) => Reading::First(a.push_digit(digit)),
            Reading::Between(a) => Reading::Second(a, Capped::from_digit(digit)),
            Reading::Second(a, b) => Reading::Second(a, b.push_digit(digit)),
            Reading::After(..) | Reading::Broken => Reading::Broken,
        }
    }

    fn after_byte(self, byte: u8) -> Self
        ensures { result ≡ after_byte self byte }
    {
        match byte {
            b' ' | b'\t' | b'\r' => self.after_blank(),
            _ => Digit::of(byte).map_or(Reading::Broken, |digit| self.after_digit(digit)),
        }
    }

    fn of(line: &[u8]) -> Self
        ensures { result ≡ fold after_byte Reading.Before line.now }
    {
        line.iter()
            .fold(Reading::Before, |reading, &byte| reading.after_byte(byte))
    }

    /// The two numbers that the line ends with.
    fn pair(self) -> Option<(u64, u64)>
        ensures { result ≡ pair_of self }
    {
        match self {
            Reading::Second(a, b) | Reading::After(a, b) => Some((a.value(), b.value())),
            _ => None,
        }
    }
}

/// The sides that a line gives.
pub fn sides_of(line: &[u8]) -> Result<Sides, Refusal>
    ensures { MatchResult result (λ s. Writes line.now s.length s.breadth) (λ e. Refused line.now e) }
{
    let (length, breadth) = Reading::of(line).pair().ok_or(Refusal::NotPair)?;
    Sides::new(length, breadth)
}
