// The sign of a number, cleared or set.
ghost use Rattle.std.specs.Prelude.{◌≡◌};
ghost use Rattle.anglelaws.specs.Formulas as Formulas;

use width::Width;

/// A width with the absolute value.
pub trait Fabs: Width {
    // Two texts: by one over `pattern` and `from_pattern`, atan2 takes 1.02 of libm's time, and 1.00 by
    // these (docs/SPEED.md).
    /// Absolute value: the sign bit cleared.
    fn fabs(self) -> Self
        ensures { Self.Width.val result ≡ Formulas.fabs (Self.Width.val self) };
}

impl Fabs for f64 {
    #[tactic(auto, using(anglelaws::proofs::Signs::nan_size, anglelaws::proofs::Signs::masked_size, anglelaws::proofs::Signs::masked_number))]
    fn fabs(self) -> f64 {
        if self.is_nan() {
            return self;
        }
        f64::from_bits(self.to_bits() & 0x7fff_ffff_ffff_ffff)
    }
}

impl Fabs for f32 {
    #[tactic(auto, using(anglelaws::proofs::Signs::nan_size, anglelaws::proofs::Signs::masked_size, anglelaws::proofs::Signs::masked_number))]
    fn fabs(self) -> f32 {
        if self.is_nan() {
            return self;
        }
        f32::from_bits(self.to_bits() & 0x7fff_ffff)
    }
}

/// A number, or its negative.
pub fn signed<W: Width>(negative: bool, z: W) -> W
    ensures { W.Width.val result ≡ Formulas.signed negative (W.Width.val z) }
{
    if negative { -z } else { z }
}
