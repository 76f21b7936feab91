// Arctangent (f64).
ghost use Rattle.std.specs.Prelude.{◌≡◌};
ghost use Rattle.std.specs.Float.{binary64};
ghost use Rattle.std.proofs.Common.{rules};
ghost use Rattle.anglelaws.specs.AnnexF.{AtanValues};
ghost use Rattle.anglelaws.specs.Atan as Atan;

use crate::generic;
use crate::generic::atan::{AtanHelper, Centre, Cuts};

// Two tables, read by an index, as in the source.
const ATANHI: [f64; 4] = [
    4.63647609000806093515e-01, /* atan(0.5)hi 0x3FDDAC67, 0x0561BB4F */
    7.85398163397448278999e-01, /* atan(1.0)hi 0x3FE921FB, 0x54442D18 */
    9.82793723247329054082e-01, /* atan(1.5)hi 0x3FEF730B, 0xD281F69B */
    1.57079632679489655800e+00, /* atan(inf)hi 0x3FF921FB, 0x54442D18 */
];

const ATANLO: [f64; 4] = [
    2.26987774529616870924e-17, /* atan(0.5)lo 0x3C7A2B7F, 0x222F65E2 */
    3.06161699786838301793e-17, /* atan(1.0)lo 0x3C81A626, 0x33145C07 */
    1.39033110312309984516e-17, /* atan(1.5)lo 0x3C700788, 0x7AF0CBBD */
    6.12323399573676603587e-17, /* atan(inf)lo 0x3C91A626, 0x33145C07 */
];

const AT: [f64; 11] = [
    3.33333333333329318027e-01, /* 0x3FD55555, 0x5555550D */
    -1.99999999998764832476e-01, /* 0xBFC99999, 0x9998EBC4 */
    1.42857142725034663711e-01, /* 0x3FC24924, 0x920083FF */
    -1.11111104054623557880e-01, /* 0xBFBC71C6, 0xFE231671 */
    9.09088713343650656196e-02, /* 0x3FB745CD, 0xC54C206E */
    -7.69187620504482999495e-02, /* 0xBFB3B0F2, 0xAF749A6D */
    6.66107313738753120669e-02, /* 0x3FB10D66, 0xA0D03D51 */
    -5.83357013379057348645e-02, /* 0xBFADDE2D, 0x52DEFD9A */
    4.97687799461593236017e-02, /* 0x3FA97B4B, 0x24760DEB */
    -3.65315727442169155270e-02, /* 0xBFA2B444, 0x2C6A6C2F */
    1.62858201153657823623e-02, /* 0x3F90AD3A, 0xE322DA11 */
];

impl AtanHelper for f64 {
    const CUTS: Cuts = Cuts {
        tiny: 0x3e40_0000,
        straight: 0x3fdc_0000,
        about_half: 0x3fe6_0000,
        about_one: 0x3ff3_0000,
        about_three_halves: 0x4003_8000,
        large: 0x4410_0000,
    };

    ghost CUTS = { record { tiny = Atan.tiny binary64; straight = Atan.straight binary64; about_half = Atan.about_half binary64; about_one = Atan.about_one binary64; about_three_halves = Atan.about_three_halves binary64; large = Atan.large binary64 } };

    ghost cuts = { Prim.search rules };

    fn atan_hi(centre: Centre) -> f64 {
        ATANHI[centre as usize]
    }

    fn atan_lo(centre: Centre) -> f64 {
        ATANLO[centre as usize]
    }

    fn series(self) -> f64 {
        let z = self * self;
        let w = z * z;
        /* break sum from i=0 to 10 AT[i]z**(i+1) into odd and even poly */
        let s1 = z * (AT[0] + w * (AT[2] + w * (AT[4] + w * (AT[6] + w * (AT[8] + w * AT[10])))));
        let s2 = w * (AT[1] + w * (AT[3] + w * (AT[5] + w * (AT[7] + w * AT[9]))));
        s1 + s2
    }
}

// libm's name, over the generic function.
/// Arctangent of `x`, in radians, from -pi/2 to pi/2.
pub fn atan(x: f64) -> f64
    ensures value { result ≡ Atan.atan binary64 x }
    ensures special { AtanValues binary64 x result }
{
    generic::atan::atan(x)
}
