// Arcsine.
ghost use Rattle.std.specs.Prelude.{◌≡◌};
ghost use Rattle.root.specs.Count.{raised_if};
ghost use Rattle.anglelaws.specs.AnnexF.{AsinValues};
ghost use Rattle.anglelaws.specs.Arcs as Arcs;

use crate::generic::acos::ArcHelper;
use root::unit::{Ported, RootUnit};
use width::Width;

// Both impls begin with the same match: a method of a trait that takes a `Number<Self>` gets no proof.
/// What a width brings to the arcsine: its text, since the narrow one takes its root in f64.
pub trait AsinHelper: ArcHelper {
    fn asin_by<U: RootUnit>(unit: &mut U, x: Self) -> Self
        ensures value { Self.Width.val result ≡ Arcs.asin Self.Width.fmt (Self.Width.val x) }
        ensures special { AsinValues Self.Width.fmt (Self.Width.val x) (Self.Width.val result) }
        ensures counted { U.RootUnit.count unit.new ≡ raised_if (Arcs.asks Self.Width.fmt (Self.Width.val x)) (U.RootUnit.count unit.old) };
}

/// Arcsine, in radians, from -pi/2 to pi/2, with its root from a root unit. The unit is asked once
/// for a size from one half up to, not including, 1, and else not.
pub fn asin_by<W: AsinHelper, U: RootUnit>(unit: &mut U, x: W) -> W
    ensures value { W.Width.val result ≡ Arcs.asin W.Width.fmt (W.Width.val x) }
    ensures special { AsinValues W.Width.fmt (W.Width.val x) (W.Width.val result) }
    ensures counted { U.RootUnit.count unit.new ≡ raised_if (Arcs.asks W.Width.fmt (W.Width.val x)) (U.RootUnit.count unit.old) }
{
    W::asin_by(unit, x)
}

/// Arcsine, in radians, from -pi/2 to pi/2.
pub fn asin<W: AsinHelper>(x: W) -> W
    ensures value { W.Width.val result ≡ Arcs.asin W.Width.fmt (W.Width.val x) }
    ensures special { AsinValues W.Width.fmt (W.Width.val x) (W.Width.val result) }
{
    asin_by(&mut Ported::new(), x)
}
