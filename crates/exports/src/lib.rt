// The functions on patterns, at either width. Any pattern may come in; a NaN goes out as the quiet
// one with a clear sign. `exports_c` hands them to C.
#![tactic(auto)]

ghost use Rattle.std.specs.Prelude.{◌≡◌, from_bits, to_bits};
ghost use Rattle.rootlaws.specs.Roots.{RootBits};
ghost use Rattle.anglelaws.specs.Arcs as Arcs;
ghost use Rattle.anglelaws.specs.Atan as Atan;
ghost use Rattle.anglelaws.specs.Atan2 as Atan2;

use angle::generic;
use angle::generic::acos::ArcHelper;
use angle::generic::asin::AsinHelper;
use angle::generic::atan::AtanHelper;
use angle::generic::atan2::Atan2Helper;
use root::sqrt::{SqrtHelper, sqrt_round};
use width::Width;

/// Arcsine.
pub fn asin<W: AsinHelper>(x: W::Int) -> W::Int
    ensures { W.Int.Int.nat result ≡ to_bits W.Width.fmt (Arcs.asin W.Width.fmt (from_bits W.Width.fmt (W.Int.Int.nat x))) }
{
    generic::asin::asin(W::from_pattern(x)).to_pattern()
}

/// Arccosine.
pub fn acos<W: ArcHelper>(x: W::Int) -> W::Int
    ensures { W.Int.Int.nat result ≡ to_bits W.Width.fmt (Arcs.acos W.Width.fmt (from_bits W.Width.fmt (W.Int.Int.nat x))) }
{
    generic::acos::acos(W::from_pattern(x)).to_pattern()
}

/// Arctangent.
pub fn atan<W: AtanHelper>(x: W::Int) -> W::Int
    ensures { W.Int.Int.nat result ≡ to_bits W.Width.fmt (Atan.atan W.Width.fmt (from_bits W.Width.fmt (W.Int.Int.nat x))) }
{
    generic::atan::atan(W::from_pattern(x)).to_pattern()
}

/// Arctangent of y/x in the quadrant of (x, y).
pub fn atan2<W: Atan2Helper>(y: W::Int, x: W::Int) -> W::Int
    ensures { W.Int.Int.nat result ≡ to_bits W.Width.fmt (Atan2.atan2 W.Width.fmt (from_bits W.Width.fmt (W.Int.Int.nat y)) (from_bits W.Width.fmt (W.Int.Int.nat x))) }
{
    generic::atan2::atan2(W::from_pattern(y), W::from_pattern(x)).to_pattern()
}

/// Square root.
pub fn sqrt<L: SqrtHelper>(x: L::Int) -> L::Int
    ensures { RootBits L.Layout.shape (L.Int.Int.nat x) (L.Int.Int.nat result) }
{
    sqrt_round::<L>(x).val
}
