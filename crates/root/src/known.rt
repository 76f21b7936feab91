// A trial of a root unit on roots that are known from elsewhere.
ghost use Rattle.std.specs.Prelude.{◌≡◌, true, length, from_bits, to_bits, Float};
ghost use Rattle.std.specs.List.{AllByRecursion};
ghost use Rattle.rootlaws.specs.Roots.{NearestRoot, OneRoot};
ghost use Rattle.root.specs.Count.{raised, raised_by};
ghost use Rattle.root.specs.Known.{rows, Known};

use crate::unit::{RootUnit, Rooted};

// Asks for the root of the number with the pattern `of`, and says whether its pattern is `root`.
fn root_is<W: Rooted, U: RootUnit>(unit: &mut U, of: W::Int, root: W::Int) -> bool
    ensures root { ((s : Float) → NearestRoot W.Width.fmt (from_bits W.Width.fmt (W.Int.Int.nat of)) s → to_bits W.Width.fmt s ≡ W.Int.Int.nat root) → result ≡ true }
    ensures counted { U.RootUnit.count unit.new ≡ raised (U.RootUnit.count unit.old) }
{
    W::root_from(unit, W::from_pattern(of)).to_pattern() == root
}

/// Asks the unit for the known roots: of 4, of 2, of the least number of each width, of the
/// greatest narrow one and of -1. That each comes as stated is proved, so an answer `false` means
/// that the program was not built as it is written. That a number has no second nearest root is
/// proved here too.
pub fn known_roots<U: RootUnit>(unit: &mut U) -> bool
    ensures rows { AllByRecursion Known rows }
    ensures one { OneRoot }
    ensures come { result ≡ true }
    ensures counted { U.RootUnit.count unit.new ≡ raised_by (length rows) (U.RootUnit.count unit.old) }
{
    root_is::<f64, U>(unit, 0x4010_0000_0000_0000, 0x4000_0000_0000_0000)
        & root_is::<f64, U>(unit, 0x4000_0000_0000_0000, 0x3ff6_a09e_667f_3bcd)
        & root_is::<f64, U>(unit, 0x0000_0000_0000_0001, 0x1e60_0000_0000_0000)
        & root_is::<f32, U>(unit, 0x0000_0001, 0x1a35_04f3)
        & root_is::<f32, U>(unit, 0x7f7f_ffff, 0x5f7f_ffff)
        & root_is::<f64, U>(unit, 0xbff0_0000_0000_0000, 0x7ff8_0000_0000_0000)
}
