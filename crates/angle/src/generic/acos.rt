// Arccosine.
ghost use Rattle.std.specs.Prelude.{◌≡◌, ℕ, T};
ghost use Rattle.std.specs.Float.Ieee.{fits};
ghost use Rattle.std.specs.Float.{sqrt};
ghost use Rattle.root.specs.Count.{raised, raised_if};
ghost use Rattle.anglelaws.specs.AnnexF.{AcosValues};
ghost use Rattle.anglelaws.specs.Arcs as Arcs;

use crate::numbers::Numerals;
use crate::words::{Number, read};
use root::unit::{Ported, RootUnit, Rooted};
use width::{Int, Width};

/// The constants of a width: pi/2, what that lacks, and up to which top word pi/2 is the answer.
#[derive(Clone, Copy)]
pub struct QuarterTurn<W> {
    pub pio2_hi: W,
    pub pio2_lo: W,
    pub tiny: u32,
}

/// What a width brings to the arcsine and the arccosine.
pub trait ArcHelper: Numerals + Rooted {
    ghost use Rattle.angle.specs.declared.generic.acos.QuarterTurn.{QuarterTurn};

    const PIO2: QuarterTurn<Self>;

    /// How many low bits of a root's pattern its high part has clear.
    const LOW_BITS: u32;

    ghost PIO2: { QuarterTurn Self };

    ghost LOW_BITS: { ℕ };

    /// The quotient of polynomials, R(x^2).
    fn r(self) -> Self
        ensures { Self.Width.val result ≡ Arcs.ratio Self.Width.fmt (Self.Width.val self) };

    /// The high part of a root: the low bits of its pattern cleared.
    #[tactic(auto, using(anglelaws::proofs::Roots::nan_high, anglelaws::proofs::Roots::high_is))]
    final fn high_part(self) -> Self
        ensures { Self.Width.val result ≡ Arcs.high_part Self.Width.fmt (Self.Width.val self) }
    {
        match self.pattern() {
            None => self,
            Some(bits) => Self::from_pattern(bits.shr(Self::LOW_BITS).shl(Self::LOW_BITS)),
        }
    }

    ghost pio2_hi: { Self.Width.val PIO2.pio2_hi ≡ Arcs.pio2_hi Self.Width.fmt };

    ghost pio2_lo: { Self.Width.val PIO2.pio2_lo ≡ Arcs.pio2_lo Self.Width.fmt };

    ghost tiny: { PIO2.tiny ≡ Arcs.tiny Self.Width.fmt };

    ghost low_bits: { LOW_BITS ≡ Arcs.low_bits Self.Width.fmt };
}

// The root that the definitions name, from a root unit.
#[tactic(auto, using(rootlaws::proofs::Rounded::root_is))]
pub(crate) fn root<W: Rooted, U: RootUnit>(unit: &mut U, z: W) -> W
    requires { T (fits W.Width.fmt (W.Width.val z)) }
    ensures root { W.Width.val result ≡ sqrt W.Width.fmt (W.Width.val z) }
    ensures counted { U.RootUnit.count unit.new ≡ raised (U.RootUnit.count unit.old) }
{
    W::root_from(unit, z)
}

// What the high part `h` lacks of the root `s` of `z`. A number and its root stay two arguments here and
// below, as in the definitions.
pub(crate) fn low_part<W: Width>(z: W, s: W, h: W) -> W
    ensures { W.Width.val result ≡ Arcs.low_part W.Width.fmt (W.Width.val z) (W.Width.val s) (W.Width.val h) }
{
    (z - h * h) / (s + h)
}

// The answer for a size above 1: not a number.
pub(crate) fn outside<W: Numerals>(x: W) -> W
    ensures { W.Width.val result ≡ Arcs.outside W.Width.fmt (W.Width.val x) }
{
    W::ZERO / (x - x)
}

// Doubled.
fn twice<W: Numerals>(z: W) -> W
    ensures { W.Width.val result ≡ Arcs.twice W.Width.fmt (W.Width.val z) }
{
    W::TWO * z
}

// acos(1) = 0, acos(-1) = pi.
fn of_one<W: ArcHelper>(negative: bool) -> W
    ensures { W.Width.val result ≡ Arcs.acos_of_one W.Width.fmt negative }
{
    if negative {
        twice(W::PIO2.pio2_hi)
    } else {
        W::ZERO
    }
}

// |x| < 0.5
fn small<W: ArcHelper>(x: W) -> W
    ensures { W.Width.val result ≡ Arcs.acos_small W.Width.fmt (W.Width.val x) }
{
    W::PIO2.pio2_hi - (x - (W::PIO2.pio2_lo - x * (x * x).r()))
}

// Half the answer for x <= -0.5, by the root `s` of `z`.
fn below_by_root<W: ArcHelper>(z: W, s: W) -> W
    ensures { W.Width.val result ≡ Arcs.acos_below W.Width.fmt (W.Width.val z) (W.Width.val s) }
{
    let w = z.r() * s - W::PIO2.pio2_lo;
    W::PIO2.pio2_hi - (s + w)
}

// Half the answer for x <= -0.5.
fn below<W: ArcHelper, U: RootUnit>(unit: &mut U, x: W) -> W
    ensures value { W.Width.val result ≡ Arcs.acos_below W.Width.fmt (Arcs.halved_sum W.Width.fmt (W.Width.val x)) (sqrt W.Width.fmt (Arcs.halved_sum W.Width.fmt (W.Width.val x))) }
    ensures counted { U.RootUnit.count unit.new ≡ raised (U.RootUnit.count unit.old) }
{
    let z = (W::ONE + x) * W::HALF;
    let s = root(unit, z);
    below_by_root(z, s)
}

// Half the answer for x >= 0.5, by the root `s` of `z`.
fn above_by_root<W: ArcHelper>(z: W, s: W) -> W
    ensures { W.Width.val result ≡ Arcs.acos_above W.Width.fmt (W.Width.val z) (W.Width.val s) }
{
    let df = s.high_part();
    let c = low_part(z, s, df);
    let w = z.r() * s + c;
    df + w
}

// Half the answer for x >= 0.5.
fn above<W: ArcHelper, U: RootUnit>(unit: &mut U, x: W) -> W
    ensures value { W.Width.val result ≡ Arcs.acos_above W.Width.fmt (Arcs.halved_rest W.Width.fmt (W.Width.val x)) (sqrt W.Width.fmt (Arcs.halved_rest W.Width.fmt (W.Width.val x))) }
    ensures counted { U.RootUnit.count unit.new ≡ raised (U.RootUnit.count unit.old) }
{
    let z = (W::ONE - x) * W::HALF;
    let s = root(unit, z);
    above_by_root(z, s)
}

// The arccosine of what is no NaN.
fn of_number<W: ArcHelper, U: RootUnit>(unit: &mut U, x: Number<W>) -> W
    ensures value { W.Width.val result ≡ Arcs.acos W.Width.fmt (W.Width.val x.value) }
    ensures counted { U.RootUnit.count unit.new ≡ raised_if (Arcs.asks W.Width.fmt (W.Width.val x.value)) (U.RootUnit.count unit.old) }
{
    if x.ix >= W::ONE_WORD {
        if x.size_is(W::ONE_WORD) {
            return of_one(x.negative);
        }
        return outside(x.value);
    }
    if x.ix < W::HALF_WORD {
        if x.ix <= W::PIO2.tiny {
            return W::PIO2.pio2_hi;
        }
        return small(x.value);
    }
    if x.negative {
        return twice(below(unit, x.value));
    }
    twice(above(unit, x.value))
}

/// Arccosine, in radians, from 0 to pi, with its root from a root unit. The unit is asked once for
/// a size from one half up to, not including, 1, and else not.
#[tactic(auto, using(anglelaws::proofs::AnnexF::acos_special))]
pub fn acos_by<W: ArcHelper, U: RootUnit>(unit: &mut U, x: W) -> W
    ensures value { W.Width.val result ≡ Arcs.acos W.Width.fmt (W.Width.val x) }
    ensures special { AcosValues W.Width.fmt (W.Width.val x) (W.Width.val result) }
    ensures counted { U.RootUnit.count unit.new ≡ raised_if (Arcs.asks W.Width.fmt (W.Width.val x)) (U.RootUnit.count unit.old) }
{
    match read(x) {
        None => x,
        Some(x) => of_number(unit, x),
    }
}

/// Arccosine, in radians, from 0 to pi.
pub fn acos<W: ArcHelper>(x: W) -> W
    ensures value { W.Width.val result ≡ Arcs.acos W.Width.fmt (W.Width.val x) }
    ensures special { AcosValues W.Width.fmt (W.Width.val x) (W.Width.val result) }
{
    acos_by(&mut Ported::new(), x)
}
