// Arcsine (f64). `asinf.rt` differs in method, so the two stay two texts, in `small` and `of_number` too.
// A number `z` and its root `s` are two arguments, as in the definitions.
ghost use Rattle.std.specs.Prelude.{◌≡◌};
ghost use Rattle.std.specs.Float.{binary64};
ghost use Rattle.root.specs.Count.{raised, raised_if};
ghost use Rattle.anglelaws.specs.AnnexF.{AsinValues};
ghost use Rattle.anglelaws.specs.Arcs as Arcs;

use crate::generic;
use crate::generic::acos::{ArcHelper, QuarterTurn, low_part, outside, root};
use crate::generic::asin::AsinHelper;
use crate::numbers::Numerals;
use crate::sign::{Fabs, signed};
use crate::words::{Number, read};
use root::unit::RootUnit;

// |x| < 0.5
fn small(x: Number<f64>) -> f64
    ensures { result ≡ Arcs.asin_small binary64 x.value }
{
    let Number { value: x, ix, .. } = x;
    /* if 0x1p-1022 <= |x| < 0x1p-26, avoid raising underflow */
    if 0x0010_0000 <= ix && ix < 0x3e50_0000 {
        x
    } else {
        x + x * (x * x).r()
    }
}

// By the root `s` of `z`, from 0.975 on.
fn near_one(z: f64, s: f64) -> f64
    ensures { result ≡ Arcs.asin_near_one z s }
{
    f64::PIO2.pio2_hi - (2. * (s + s * z.r()) - f64::PIO2.pio2_lo)
}

// The same below 0.975, where the root is taken in two parts.
fn split(z: f64, s: f64) -> f64
    ensures { result ≡ Arcs.asin_split z s }
{
    let QuarterTurn {
        pio2_hi,
        pio2_lo,
        ..
    } = f64::PIO2;
    /* f+c = sqrt(z) */
    let f = s.high_part();
    let c = low_part(z, s, f);
    0.5 * pio2_hi - (2.0 * s * z.r() - (pio2_lo - 2.0 * c) - (0.5 * pio2_hi - 2.0 * f))
}

// 1 > |x| >= 0.5
fn large<U: RootUnit>(unit: &mut U, x: Number<f64>) -> f64
    ensures value { result ≡ Arcs.asin_large binary64 x.value }
    ensures counted { U.RootUnit.count unit.new ≡ raised (U.RootUnit.count unit.old) }
{
    let z = (1.0 - x.value.fabs()) * 0.5;
    let s = root(unit, z);
    if x.ix >= 0x3fef_3333 {
        near_one(z, s)
    } else {
        split(z, s)
    }
}

// The arcsine of what is no NaN.
fn of_number<U: RootUnit>(unit: &mut U, x: Number<f64>) -> f64
    ensures value { result ≡ Arcs.asin binary64 x.value }
    ensures counted { U.RootUnit.count unit.new ≡ raised_if (Arcs.asks binary64 x.value) (U.RootUnit.count unit.old) }
{
    /* |x| >= 1 */
    if x.ix >= 0x3ff0_0000 {
        if x.size_is(0x3ff0_0000) {
            /* asin(1) = +-pi/2 */
            return x.value * f64::PIO2.pio2_hi;
        }
        return outside(x.value);
    }
    if x.ix < 0x3fe0_0000 {
        return small(x);
    }
    signed(x.negative, large(unit, x))
}

impl AsinHelper for f64 {
    #[tactic(auto, using(anglelaws::proofs::AnnexF::asin_special))]
    fn asin_by<U: RootUnit>(unit: &mut U, x: f64) -> f64 {
        match read(x) {
            None => x,
            Some(x) => of_number(unit, x),
        }
    }
}

// The generic function, at this width, with its root unit.
/// Arcsine of `x`, in radians, from -pi/2 to pi/2, with its root from a root unit. The unit is asked
/// once for a size from one half up to, not including, 1, and else not.
pub fn asin_by<U: RootUnit>(unit: &mut U, x: f64) -> f64
    ensures value { result ≡ Arcs.asin binary64 x }
    ensures special { AsinValues binary64 x result }
    ensures counted { U.RootUnit.count unit.new ≡ raised_if (Arcs.asks binary64 x) (U.RootUnit.count unit.old) }
{
    generic::asin::asin_by(unit, x)
}

// libm's name, over the generic function.
/// Arcsine of `x`, in radians, from -pi/2 to pi/2.
pub fn asin(x: f64) -> f64
    ensures value { result ≡ Arcs.asin binary64 x }
    ensures special { AsinValues binary64 x result }
{
    generic::asin::asin(x)
}
