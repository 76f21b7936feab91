// Arctangent of y/x (f64).
ghost use Rattle.std.specs.Prelude.{◌≡◌};
ghost use Rattle.std.specs.Float.{binary64};
ghost use Rattle.std.proofs.Common.{rules};
ghost use Rattle.anglelaws.specs.AnnexF.{Atan2Values};
ghost use Rattle.anglelaws.specs.Atan2 as Atan2;

use crate::generic;
use crate::generic::atan2::{Atan2Helper, HalfTurn};

impl Atan2Helper for f64 {
    const PI: HalfTurn<f64> = HalfTurn {
        pi: 3.1415926535897931160E+00, /* 0x400921FB, 0x54442D18 */
        pi_lo: 1.2246467991473531772E-16, /* 0x3CA1A626, 0x33145C07 */
        cut: 64 << 20,
    };

    ghost PI = { record { pi = Atan2.pi binary64; pi_lo = Atan2.pi_lo binary64; cut = Atan2.cut binary64 } };

    ghost pi = { Prim.search rules };

    ghost pi_lo = { Prim.search rules };

    ghost cut = { Prim.search rules };
}

// libm's name, over the generic function.
/// Arctangent of `y/x` in the quadrant of (x, y), in radians, from -pi to pi.
pub fn atan2(y: f64, x: f64) -> f64
    ensures value { result ≡ Atan2.atan2 binary64 y x }
    ensures special { Atan2Values binary64 y x result }
{
    generic::atan2::atan2(y, x)
}
