// Arcsine (f32). The root and the last line are taken in f64, and rounded to f32 once.
// `asin.rt` differs in method, so the two stay two texts, in `small` and `of_number` too. A number `z` and
// its root `s` are two arguments, as in the definitions.
ghost use Rattle.std.specs.Prelude.{◌≡◌};
ghost use Rattle.std.specs.Float.{binary32};
ghost use Rattle.root.specs.Count.{raised, raised_if};
ghost use Rattle.anglelaws.specs.AnnexF.{AsinValues};
ghost use Rattle.anglelaws.specs.Arcs as Arcs;

use crate::generic;
use crate::generic::acos::{ArcHelper, outside, root};
use crate::generic::asin::AsinHelper;
use crate::narrowed::narrowed;
use crate::sign::{Fabs, signed};
use crate::words::{Number, read};
use root::unit::RootUnit;
use std::num::f32_to_f64_with_nan;

const PIO2: f64 = 1.570796326794896558e+00;

// |x| < 0.5
fn small(x: Number<f32>) -> f32
    ensures { result ≡ Arcs.asin_small binary32 x.value }
{
    let Number { value: x, ix, .. } = x;
    /* if 0x1p-126 <= |x| < 0x1p-12, avoid raising underflow */
    if 0x0080_0000 <= ix && ix < 0x3980_0000 {
        x
    } else {
        x + x * (x * x).r()
    }
}

// By the root `s` of `z`.
fn from_root(z: f32, s: f64) -> f32
    ensures { result ≡ Arcs.asinf_large z s }
{
    narrowed(PIO2 - 2. * (s + s * f32_to_f64_with_nan(z.r())))
}

// 1 > |x| >= 0.5
fn large<U: RootUnit>(unit: &mut U, x: f32) -> f32
    ensures value { result ≡ Arcs.asin_large binary32 x }
    ensures counted { U.RootUnit.count unit.new ≡ raised (U.RootUnit.count unit.old) }
{
    let z = (1. - x.fabs()) * 0.5;
    let s = root(unit, f32_to_f64_with_nan(z));
    from_root(z, s)
}

// The arcsine of what is no NaN.
fn of_number<U: RootUnit>(unit: &mut U, x: Number<f32>) -> f32
    ensures value { result ≡ Arcs.asin binary32 x.value }
    ensures counted { U.RootUnit.count unit.new ≡ raised_if (Arcs.asks binary32 x.value) (U.RootUnit.count unit.old) }
{
    /* |x| >= 1 */
    if x.ix >= 0x3f80_0000 {
        if x.size_is(0x3f80_0000) {
            /* asin(+-1) = +-pi/2 */
            return narrowed(f32_to_f64_with_nan(x.value) * PIO2);
        }
        return outside(x.value);
    }
    if x.ix < 0x3f00_0000 {
        return small(x);
    }
    signed(x.negative, large(unit, x.value))
}

impl AsinHelper for f32 {
    #[tactic(auto, using(anglelaws::proofs::AnnexF::asin_special))]
    fn asin_by<U: RootUnit>(unit: &mut U, x: f32) -> f32 {
        match read(x) {
            None => x,
            Some(x) => of_number(unit, x),
        }
    }
}

// The generic function, at this width, with its root unit.
/// Arcsine of `x`, in radians, from -pi/2 to pi/2, with its root from a root unit. The unit is asked
/// once for a size from one half up to, not including, 1, and else not.
pub fn asinf_by<U: RootUnit>(unit: &mut U, x: f32) -> f32
    ensures value { result ≡ Arcs.asin binary32 x }
    ensures special { AsinValues binary32 x result }
    ensures counted { U.RootUnit.count unit.new ≡ raised_if (Arcs.asks binary32 x) (U.RootUnit.count unit.old) }
{
    generic::asin::asin_by(unit, x)
}

// libm's name, over the generic function.
/// Arcsine of `x`, in radians, from -pi/2 to pi/2.
pub fn asinf(x: f32) -> f32
    ensures value { result ≡ Arcs.asin binary32 x }
    ensures special { AsinValues binary32 x result }
{
    generic::asin::asin(x)
}
