// A trial of the build on answers that are known from elsewhere.
ghost use Rattle.std.specs.Prelude.{◌≡◌, true, ◌==◌, to_bits};
ghost use Rattle.std.specs.List.{AllByRecursion};
ghost use Rattle.anglelaws.specs.Asked.{FromHalf};
ghost use Rattle.anglelaws.specs.Known.{rows, Known};

use crate::acos::acos;
use crate::asin::asin;
use crate::atan2::atan2;
use crate::atan2f::atan2f;
use crate::atanf::atanf;
use root::known::known_roots;
use root::unit::Ported;
use width::{Int, Width};

// Whether the answer `x` has the pattern `known`.
fn answer_is<W: Width>(x: W, known: W::Int) -> bool
    ensures { result ≡ (to_bits W.Width.fmt (W.Width.val x) == W.Int.Int.nat known) }
{
    x.to_pattern() == known
}

// Angles: atan2 of +0 and -0 and of the infinities, asin and acos of 1, the narrow atan of 2^26,
// and the narrow atan2 of 1 and 0.
fn known_angles() -> bool
    ensures { result ≡ true }
{
    let zero = f64::from_pattern(0x0000_0000_0000_0000);
    let minus_zero = f64::from_pattern(0x8000_0000_0000_0000);
    let infinity = f64::from_pattern(0x7ff0_0000_0000_0000);
    let minus_infinity = f64::from_pattern(0xfff0_0000_0000_0000);
    let one = f64::from_pattern(0x3ff0_0000_0000_0000);
    let narrow_large = f32::from_pattern(0x4c80_0000);
    let narrow_one = f32::from_pattern(0x3f80_0000);
    let narrow_zero = f32::from_pattern(0x0000_0000);
    answer_is(atan2(zero, minus_zero), 0x4009_21fb_5444_2d18)
        & answer_is(atan2(infinity, minus_infinity), 0x4002_d97c_7f33_21d2)
        & answer_is(asin(one), 0x3ff9_21fb_5444_2d18)
        & answer_is(acos(one), 0x0000_0000_0000_0000)
        & answer_is(atanf(narrow_large), 0x3fc9_0fda)
        & answer_is(atan2f(narrow_one, narrow_zero), 0x3fc9_0fdb)
}

/// Asks for the known answers, the roots from the ported unit. That each comes as stated is proved,
/// so an answer `false` means that the program was not built as it is written. When a root unit is
/// asked is proved here too.
#[tactic(auto, using(crate::proofs::Rows::known_rows, anglelaws::proofs::Asked::from_half))]
pub fn known_answers() -> bool
    ensures rows { AllByRecursion Known rows }
    ensures asked { FromHalf }
    ensures come { result ≡ true }
{
    known_roots(&mut Ported::new()) & known_angles()
}
