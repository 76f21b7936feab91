// The diagonal of a field.
ghost use Rattle.std.specs.Prelude.{◌≡◌, ◌+◌, ◌*◌, pos, Some};
ghost use Rattle.std.specs.Float.Ieee.{of_int, to_unsigned};
ghost use Rattle.std.specs.Float.{float_round, binary64};
ghost use Rattle.root.specs.Count.{raised};
ghost use Rattle.rootlaws.specs.Roots.{NearestRoot};

use crate::sides::Sides;
use root::unit::RootUnit;
use std::fmt;
use std::num::{f64_to_bits_with_nan, saturating_f64_to_u64};

/// A diagonal: the nearest wide float, and that in whole millimetres, halves rounded up.
#[derive(Clone, Copy)]
pub struct Reach {
    pub reach: f64,
    pub millimetres: u64,
}

/// The millimetres, and the float's pattern as 16 hexadecimal digits.
impl fmt::Display for Reach {
    ghost use Rattle.field.specs.Texts.{reach_text};

    ghost output = { λ r. Some (reach_text r) };

    fn fmt<W: fmt::Write>(&self, f: &mut fmt::Formatter<W>) -> fmt::Result {
        let pattern = f64_to_bits_with_nan(self.reach);
        write!(f, "{} mm {pattern:016x}", self.millimetres)
    }
}

/// The diagonal of a field, by one root asked of the unit.
pub fn diagonal<U: RootUnit>(unit: &mut U, sides: Sides) -> Reach
    ensures nearest { NearestRoot binary64 (of_int binary64 (pos (sides.length * sides.length + sides.breadth * sides.breadth))) result.reach }
    ensures rounded { result.millimetres ≡ to_unsigned 64 (float_round binary64 result.reach) }
    ensures counted { U.RootUnit.count unit.new ≡ raised (U.RootUnit.count unit.old) }
{
    let reach = unit.wide_root(sides.sum_of_squares() as f64);
    let millimetres = saturating_f64_to_u64(reach.round());
    Reach { reach, millimetres }
}
