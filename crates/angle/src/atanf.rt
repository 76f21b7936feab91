// Arctangent (f32).
ghost use Rattle.std.specs.Prelude.{◌≡◌};
ghost use Rattle.std.specs.Float.{binary32};
ghost use Rattle.std.proofs.Common.{rules};
ghost use Rattle.anglelaws.specs.AnnexF.{AtanValues};
ghost use Rattle.anglelaws.specs.Atan as Atan;

use crate::generic;
use crate::generic::atan::{AtanHelper, Centre, Cuts};

// Two tables, read by an index, as in the source.
const ATAN_HI: [f32; 4] = [
    4.6364760399e-01, /* atan(0.5)hi 0x3eed6338 */
    7.8539812565e-01, /* atan(1.0)hi 0x3f490fda */
    9.8279368877e-01, /* atan(1.5)hi 0x3f7b985e */
    1.5707962513e+00, /* atan(inf)hi 0x3fc90fda */
];

const ATAN_LO: [f32; 4] = [
    5.0121582440e-09, /* atan(0.5)lo 0x31ac3769 */
    3.7748947079e-08, /* atan(1.0)lo 0x33222168 */
    3.4473217170e-08, /* atan(1.5)lo 0x33140fb4 */
    7.5497894159e-08, /* atan(inf)lo 0x33a22168 */
];

const A_T: [f32; 5] = [
    3.3333328366e-01,
    -1.9999158382e-01,
    1.4253635705e-01,
    -1.0648017377e-01,
    6.1687607318e-02,
];

impl AtanHelper for f32 {
    const CUTS: Cuts = Cuts {
        tiny: 0x3980_0000,
        straight: 0x3ee0_0000,
        about_half: 0x3f30_0000,
        about_one: 0x3f98_0000,
        about_three_halves: 0x401c_0000,
        large: 0x4c80_0000,
    };

    ghost CUTS = { record { tiny = Atan.tiny binary32; straight = Atan.straight binary32; about_half = Atan.about_half binary32; about_one = Atan.about_one binary32; about_three_halves = Atan.about_three_halves binary32; large = Atan.large binary32 } };

    ghost cuts = { Prim.search rules };

    fn atan_hi(centre: Centre) -> f32 {
        ATAN_HI[centre as usize]
    }

    fn atan_lo(centre: Centre) -> f32 {
        ATAN_LO[centre as usize]
    }

    fn series(self) -> f32 {
        let z = self * self;
        let w = z * z;
        /* break sum from i=0 to 4 A_T[i]z**(i+1) into odd and even poly */
        let s1 = z * (A_T[0] + w * (A_T[2] + w * A_T[4]));
        let s2 = w * (A_T[1] + w * A_T[3]);
        s1 + s2
    }
}

// libm's name, over the generic function.
/// Arctangent of `x`, in radians, from -pi/2 to pi/2.
pub fn atanf(x: f32) -> f32
    ensures value { result ≡ Atan.atan binary32 x }
    ensures special { AtanValues binary32 x result }
{
    generic::atan::atan(x)
}
