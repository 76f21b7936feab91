// Arccosine (f64).
ghost use Rattle.std.specs.Prelude.{◌≡◌};
ghost use Rattle.std.specs.Float.{binary64};
ghost use Rattle.std.proofs.Common.{rules};
ghost use Rattle.anglelaws.specs.AnnexF.{AcosValues};
ghost use Rattle.anglelaws.specs.Arcs as Arcs;

use crate::generic;
use crate::generic::acos::{ArcHelper, QuarterTurn};

const PS0: f64 = 1.66666666666666657415e-01; /* 0x3FC55555, 0x55555555 */

const PS1: f64 = -3.25565818622400915405e-01; /* 0xBFD4D612, 0x03EB6F7D */

const PS2: f64 = 2.01212532134862925881e-01; /* 0x3FC9C155, 0x0E884455 */

const PS3: f64 = -4.00555345006794114027e-02; /* 0xBFA48228, 0xB5688F3B */

const PS4: f64 = 7.91534994289814532176e-04; /* 0x3F49EFE0, 0x7501B288 */

const PS5: f64 = 3.47933107596021167570e-05; /* 0x3F023DE1, 0x0DFDF709 */

const QS1: f64 = -2.40339491173441421878e+00; /* 0xC0033A27, 0x1C8A2D4B */

const QS2: f64 = 2.02094576023350569471e+00; /* 0x40002AE5, 0x9C598AC8 */

const QS3: f64 = -6.88283971605453293030e-01; /* 0xBFE6066C, 0x1B8D0159 */

const QS4: f64 = 7.70381505559019352791e-02; /* 0x3FB3B8C5, 0xB12E9282 */

impl ArcHelper for f64 {
    const PIO2: QuarterTurn<f64> = QuarterTurn {
        pio2_hi: 1.57079632679489655800e+00, /* 0x3FF921FB, 0x54442D18 */
        pio2_lo: 6.12323399573676603587e-17, /* 0x3C91A626, 0x33145C07 */
        tiny: 0x3c60_0000,
    };

    const LOW_BITS: u32 = 32; /* the low 4 bytes */

    ghost PIO2 = { record { pio2_hi = Arcs.pio2_hi binary64; pio2_lo = Arcs.pio2_lo binary64; tiny = Arcs.tiny binary64 } };

    ghost LOW_BITS = { 32 };

    ghost pio2_hi = { Prim.search rules };

    ghost pio2_lo = { Prim.search rules };

    ghost tiny = { Prim.search rules };

    fn r(self) -> f64 {
        let z = self;
        let p = z * (PS0 + z * (PS1 + z * (PS2 + z * (PS3 + z * (PS4 + z * PS5)))));
        let q = 1.0 + z * (QS1 + z * (QS2 + z * (QS3 + z * QS4)));
        p / q
    }

    ghost low_bits = { Prim.search rules };
}

// libm's name, over the generic function.
/// Arccosine of `x`, in radians, from 0 to pi.
pub fn acos(x: f64) -> f64
    ensures value { result ≡ Arcs.acos binary64 x }
    ensures special { AcosValues binary64 x result }
{
    generic::acos::acos(x)
}
