// Arccosine (f32).
ghost use Rattle.std.specs.Prelude.{◌≡◌};
ghost use Rattle.std.specs.Float.{binary32};
ghost use Rattle.std.proofs.Common.{rules};
ghost use Rattle.anglelaws.specs.AnnexF.{AcosValues};
ghost use Rattle.anglelaws.specs.Arcs as Arcs;

use crate::generic;
use crate::generic::acos::{ArcHelper, QuarterTurn};

const P_S0: f32 = 1.6666586697e-01;

const P_S1: f32 = -4.2743422091e-02;

const P_S2: f32 = -8.6563630030e-03;

const Q_S1: f32 = -7.0662963390e-01;

impl ArcHelper for f32 {
    const PIO2: QuarterTurn<f32> = QuarterTurn {
        pio2_hi: 1.5707962513e+00, /* 0x3fc90fda */
        pio2_lo: 7.5497894159e-08, /* 0x33a22168 */
        tiny: 0x3280_0000,
    };

    const LOW_BITS: u32 = 12;

    ghost PIO2 = { record { pio2_hi = Arcs.pio2_hi binary32; pio2_lo = Arcs.pio2_lo binary32; tiny = Arcs.tiny binary32 } };

    ghost LOW_BITS = { 12 };

    ghost pio2_hi = { Prim.search rules };

    ghost pio2_lo = { Prim.search rules };

    ghost tiny = { Prim.search rules };

    fn r(self) -> f32 {
        let z = self;
        let p = z * (P_S0 + z * (P_S1 + z * P_S2));
        let q = 1. + z * Q_S1;
        p / q
    }

    ghost low_bits = { Prim.search rules };
}

// libm's name, over the generic function.
/// Arccosine of `x`, in radians, from 0 to pi.
pub fn acosf(x: f32) -> f32
    ensures value { result ≡ Arcs.acos binary32 x }
    ensures special { AcosValues binary32 x result }
{
    generic::acos::acos(x)
}
