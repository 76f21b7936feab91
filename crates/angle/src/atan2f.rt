// Arctangent of y/x (f32).
ghost use Rattle.std.specs.Prelude.{◌≡◌, from_bits};
ghost use Rattle.std.specs.Float.{binary32};
ghost use Rattle.std.specs.Float.Ieee.{neg};
ghost use Rattle.std.proofs.Common.{rules};
ghost use Rattle.anglelaws.specs.AnnexF.{Atan2Values};
ghost use Rattle.anglelaws.specs.Atan2 as Atan2;
ghost use Rattle.anglelaws.proofs.Signs.{narrow_pi_lo};

use crate::generic;
use crate::generic::atan2::{Atan2Helper, HalfTurn};

impl Atan2Helper for f32 {
    const PI: HalfTurn<f32> = HalfTurn {
        pi: 3.1415927410e+00, /* 0x40490fdb */
        pi_lo: -8.7422776573e-08, /* 0xb3bbbd2e */
        cut: 26 << 23,
    };

    ghost PI = { record { pi = Atan2.pi binary32; pi_lo = neg (from_bits binary32 0x33bbbd2e); cut = Atan2.cut binary32 } };

    ghost pi = { Prim.search rules };

    ghost pi_lo = { narrow_pi_lo };

    ghost cut = { Prim.search rules };
}

// libm's name, over the generic function.
/// Arctangent of `y/x` in the quadrant of (x, y), in radians, from -pi to pi.
pub fn atan2f(y: f32, x: f32) -> f32
    ensures value { result ≡ Atan2.atan2 binary32 y x }
    ensures special { Atan2Values binary32 y x result }
{
    generic::atan2::atan2(y, x)
}
