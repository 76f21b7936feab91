// Arctangent of y/x.
ghost use Rattle.std.specs.Prelude.{◌≡◌, ◌+◌, nat_lt};
ghost use Rattle.std.specs.Float.{is_sign_negative};
ghost use Rattle.anglelaws.specs.AnnexF.{Atan2Values};
ghost use Rattle.anglelaws.specs.Atan2 as Atan2;

use crate::generic::atan::{AtanHelper, atan};
use crate::numbers::Numerals;
use crate::sign::{Fabs, signed};
use crate::words::{Number, read};
use width::Width;

/// The constants of a width: pi, what that lacks, and from which quotient on a line is upright or
/// level, in the exponent of a top word.
#[derive(Clone, Copy)]
pub struct HalfTurn<W> {
    pub pi: W,
    pub pi_lo: W,
    pub cut: u32,
}

/// What a width brings to the arctangent of y/x.
pub trait Atan2Helper: AtanHelper {
    ghost use Rattle.angle.specs.declared.generic.atan2.HalfTurn.{HalfTurn};

    const PI: HalfTurn<Self>;

    ghost PI: { HalfTurn Self };

    ghost pi: { Self.Width.val PI.pi ≡ Atan2.pi Self.Width.fmt };

    ghost pi_lo: { Self.Width.val PI.pi_lo ≡ Atan2.pi_lo Self.Width.fmt };

    ghost cut: { PI.cut ≡ Atan2.cut Self.Width.fmt };
}

// The quadrant of (x, y), by the sign bits.
#[derive(Clone, Copy)]
struct Quadrant {
    y_negative: bool,
    x_negative: bool,
}

impl Quadrant {
    fn of<W: Width>(y: &Number<W>, x: &Number<W>) -> Quadrant
        ensures y { result.y_negative ≡ is_sign_negative (W.Width.val y.now.value) }
        ensures x { result.x_negative ≡ is_sign_negative (W.Width.val x.now.value) }
    {
        Quadrant {
            y_negative: y.negative,
            x_negative: x.negative,
        }
    }

    // y is zero: atan(+-0, +anything) = +-0, atan(+-0, -anything) = +-PI.
    fn level<W: Atan2Helper>(self, y: W) -> W
        ensures { W.Width.val result ≡ Atan2.level W.Width.fmt self.y_negative self.x_negative (W.Width.val y) }
    {
        if self.x_negative {
            signed(self.y_negative, W::PI.pi)
        } else {
            y
        }
    }

    // x is zero, or y/x is large: +-PI / 2.
    fn upright<W: Atan2Helper>(self) -> W
        ensures { W.Width.val result ≡ Atan2.upright W.Width.fmt self.y_negative }
    {
        signed(self.y_negative, W::PI.pi) / W::TWO
    }

    // Both are infinite: +-PI / 4 or +-3 PI / 4.
    fn diagonal<W: Atan2Helper>(self) -> W
        ensures { W.Width.val result ≡ Atan2.diagonal W.Width.fmt self.y_negative self.x_negative }
    {
        if self.x_negative {
            signed(self.y_negative, W::THREE) * W::PI.pi / W::FOUR
        } else {
            signed(self.y_negative, W::PI.pi) / W::FOUR
        }
    }

    // x is infinite, and y is not: +-0 or +-PI.
    fn along<W: Atan2Helper>(self) -> W
        ensures { W.Width.val result ≡ Atan2.along W.Width.fmt self.y_negative self.x_negative }
    {
        if self.x_negative {
            signed(self.y_negative, W::PI.pi)
        } else {
            signed(self.y_negative, W::ZERO)
        }
    }

    // The angle `z` of the sizes, put into the quadrant.
    fn placed<W: Atan2Helper>(self, z: W) -> W
        ensures { W.Width.val result ≡ Atan2.placed W.Width.fmt self.y_negative self.x_negative (W.Width.val z) }
    {
        match (self.y_negative, self.x_negative) {
            (_, false) => signed(self.y_negative, z), /* atan(+-, +) */
            (false, true) => W::PI.pi - (z - W::PI.pi_lo), /* atan(+, -) */
            (true, true) => (z - W::PI.pi_lo) - W::PI.pi, /* atan(-, -) */
        }
    }
}

// Whether the quotient of two sizes lies past the cut, by their top words.
fn past_cut<W: Atan2Helper>(small: u32, large: u32) -> bool
    ensures { result ≡ nat_lt (small + Atan2.cut W.Width.fmt) large }
{
    u64::from(small) + u64::from(W::PI.cut) < u64::from(large)
}

// Both are finite, and neither is zero; or y is infinite. The two stay two arguments, each with its facts.
fn quotient<W: Atan2Helper>(y: Number<W>, x: Number<W>) -> W
    ensures { W.Width.val result ≡ Atan2.quotient W.Width.fmt (W.Width.val y.value) (W.Width.val x.value) }
{
    let quadrant = Quadrant::of(&y, &x);
    if past_cut::<W>(x.ix, y.ix) || y.is_infinite() {
        return quadrant.upright();
    }
    // The angle of the sizes, atan(|y/x|) without spurious underflow.
    let z = if x.negative && past_cut::<W>(y.ix, x.ix) {
        W::ZERO /* |y/x| is small, x < 0 */
    } else {
        atan((y.value / x.value).fabs())
    };
    quadrant.placed(z)
}

// Neither is NaN.
fn of_numbers<W: Atan2Helper>(y: Number<W>, x: Number<W>) -> W
    ensures { W.Width.val result ≡ Atan2.of_numbers W.Width.fmt (W.Width.val y.value) (W.Width.val x.value) }
{
    let quadrant = Quadrant::of(&y, &x);
    if x.is_one() {
        return atan(y.value);
    }
    if y.size_is(0) {
        return quadrant.level(y.value);
    }
    if x.size_is(0) {
        return quadrant.upright();
    }
    if x.is_infinite() {
        if y.is_infinite() {
            return quadrant.diagonal();
        }
        return quadrant.along();
    }
    quotient(y, x)
}

/// Arctangent of y/x in the quadrant of (x, y), in radians, from -pi to pi.
#[tactic(auto, using(anglelaws::proofs::AnnexF::atan2_special))]
pub fn atan2<W: Atan2Helper>(y: W, x: W) -> W
    ensures value { W.Width.val result ≡ Atan2.atan2 W.Width.fmt (W.Width.val y) (W.Width.val x) }
    ensures special { Atan2Values W.Width.fmt (W.Width.val y) (W.Width.val x) (W.Width.val result) }
{
    match (read(y), read(x)) {
        (Some(y), Some(x)) => of_numbers(y, x),
        // Two arms, since the proof goes by which of the two is NaN.
        (_, None) => x + y,
        (None, _) => x + y,
    }
}
