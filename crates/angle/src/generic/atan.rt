// Arctangent.
ghost use Rattle.std.specs.Prelude.{◌≡◌};
ghost use Rattle.anglelaws.specs.AnnexF.{AtanValues};
ghost use Rattle.anglelaws.specs.Atan as Atan;
ghost use Rattle.angle.specs.Centres.{place};

use crate::numbers::Numerals;
use crate::sign::{Fabs, signed};
use crate::words::{Number, read};
use width::Width;

/// What the argument is taken about: the arctangent of each stands in the width's tables.
#[derive(Clone, Copy)]
pub enum Centre {
    Half,
    One,
    ThreeHalves,
    Infinity,
}

/// The cuts between the branches, as top words.
#[derive(Clone, Copy)]
pub struct Cuts {
    pub tiny: u32,
    pub straight: u32,
    pub about_half: u32,
    pub about_one: u32,
    pub about_three_halves: u32,
    pub large: u32,
}

/// What a width brings to the arctangent.
pub trait AtanHelper: Numerals + Fabs {
    ghost use Rattle.angle.specs.Cuts.{CutsOf};
    ghost use Rattle.angle.specs.declared.generic.atan.Cuts.{Cuts};

    const CUTS: Cuts;

    ghost CUTS: { Cuts };

    // Two tables, read by an index, as in the source; behind methods, since generic code cannot index an
    // array of `Self`.

    /// The arctangent of a centre, rounded.
    fn atan_hi(centre: Centre) -> Self
        ensures { Self.Width.val result ≡ Atan.atanhi Self.Width.fmt (place centre) };

    /// What that lacks.
    fn atan_lo(centre: Centre) -> Self
        ensures { Self.Width.val result ≡ Atan.atanlo Self.Width.fmt (place centre) };

    /// The polynomial, for a small argument.
    fn series(self) -> Self
        ensures { Self.Width.val result ≡ Atan.series Self.Width.fmt (Self.Width.val self) };

    ghost cuts: { CutsOf Self.Width.fmt CUTS };
}

// Reduces the size `x`, whose top word is `ix`, to a small argument about a centre.
fn reduced<W: AtanHelper>(x: W, ix: u32) -> (Centre, W)
    ensures centre { place result.0 ≡ Atan.centre W.Width.fmt ix }
    ensures value { W.Width.val result.1 ≡ Atan.reduced W.Width.fmt ix (W.Width.val x) }
{
    if ix < W::CUTS.about_one {
        if ix < W::CUTS.about_half {
            (Centre::Half, (W::TWO * x - W::ONE) / (W::TWO + x))
        } else {
            (Centre::One, (x - W::ONE) / (x + W::ONE))
        }
    } else if ix < W::CUTS.about_three_halves {
        (
            Centre::ThreeHalves,
            (x - W::THREE_HALVES) / (W::ONE + W::THREE_HALVES * x),
        )
    } else {
        (Centre::Infinity, -W::ONE / x)
    }
}

// The arctangent of a small argument.
fn near<W: AtanHelper>(x: W) -> W
    ensures { W.Width.val result ≡ Atan.near W.Width.fmt (W.Width.val x) }
{
    x - x * x.series()
}

// The arctangent of a centre, and that of a small argument about it.
fn turned<W: AtanHelper>(centre: Centre, x: W) -> W
    ensures { W.Width.val result ≡ Atan.turned W.Width.fmt (place centre) (W.Width.val x) }
{
    W::atan_hi(centre) - (x * x.series() - W::atan_lo(centre) - x)
}

// The arctangent of what is no NaN.
fn of_number<W: AtanHelper>(x: Number<W>) -> W
    ensures { W.Width.val result ≡ Atan.atan W.Width.fmt (W.Width.val x.value) }
{
    if x.ix >= W::CUTS.large {
        return signed(x.negative, W::atan_hi(Centre::Infinity));
    }
    if x.ix < W::CUTS.straight {
        if x.ix < W::CUTS.tiny {
            return x.value;
        }
        return near(x.value);
    }
    let (centre, t) = reduced(x.value.fabs(), x.ix);
    signed(x.negative, turned(centre, t))
}

/// Arctangent, in radians, from -pi/2 to pi/2.
#[tactic(auto, using(anglelaws::proofs::AnnexF::atan_special))]
pub fn atan<W: AtanHelper>(x: W) -> W
    ensures value { W.Width.val result ≡ Atan.atan W.Width.fmt (W.Width.val x) }
    ensures special { AtanValues W.Width.fmt (W.Width.val x) (W.Width.val result) }
{
    match read(x) {
        None => x,
        Some(x) => of_number(x),
    }
}
