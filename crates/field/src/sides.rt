// The sides of a field.
ghost use Rattle.std.specs.Prelude.{◌≡◌, ◌+◌, ◌*◌, ◌^◌, ◌<◌, ◌≤◌, Some, None, MatchResult};
ghost use Rattle.field.specs.Field.{longest, fault_of};

use crate::refusal::Refusal;
use std::fmt;

/// The sides of a field in millimetres, each from 1 to 67,108,864, which is 2^26. So the sum of
/// their squares is at most 2^53, and up to that every whole number is a wide float.
#[derive(Clone, Copy)]
pub struct Sides {
    length: u64,
    breadth: u64,
    ghost some: { (0 < length) × (0 < breadth) },
    ghost exact: { (length ≤ longest) × (breadth ≤ longest) },
}

impl Sides {
    pub const LONGEST: u64 = 67_108_864;

    pub fn new(length: u64, breadth: u64) -> Result<Sides, Refusal>
        ensures { MatchResult result (λ s. (fault_of length breadth ≡ None) × (s.length ≡ length) × (s.breadth ≡ breadth)) (λ e. fault_of length breadth ≡ Some e) }
    {
        if length == 0 || breadth == 0 {
            return Err(Refusal::NoSide);
        }
        if length > Self::LONGEST || breadth > Self::LONGEST {
            return Err(Refusal::TooLong);
        }
        Ok(Sides { length, breadth })
    }

    // A getter for each side, since the sides must not be written.
    pub fn length(self) -> u64
        ensures value { result ≡ self.length }
        ensures bound { (0 < result) × (result ≤ longest) }
    {
        self.length
    }

    pub fn breadth(self) -> u64
        ensures value { result ≡ self.breadth }
        ensures bound { (0 < result) × (result ≤ longest) }
    {
        self.breadth
    }

    pub(crate) fn sum_of_squares(self) -> u64
        ensures value { result ≡ self.length * self.length + self.breadth * self.breadth }
        ensures bound { result ≤ 2 ^ 53 }
    {
        let Sides { length, breadth } = self;
        length * length + breadth * breadth
    }
}

impl fmt::Display for Sides {
    ghost use Rattle.field.specs.Texts.{sides_text};

    ghost output = { λ s. Some (sides_text s) };

    fn fmt<W: fmt::Write>(&self, f: &mut fmt::Formatter<W>) -> fmt::Result {
        let Sides { length, breadth } = self;
        write!(f, "{length} x {breadth}")
    }
}
