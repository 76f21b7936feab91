// The narrow width: `u32` and `f32`.
// `wide.rt` has the same impls, but for `wmulh`, with its own constants and std's functions of its types. A macro may write
// no impl, and default bodies over std's operators would need more laws than they save.
ghost use Rattle.std.specs.Prelude.{◌^◌};
ghost use Rattle.std.specs.Float.{binary32};
ghost use Rattle.width.specs.Product.{exact};
ghost use Rattle.width.specs.Shape.{shape_of, format_sound};
ghost use Rattle.std.proofs.Common.{rules};

use crate::float_traits::{Layout, Width};
use crate::int_traits::{HInt, Int};
use std::num::f32_from_bits_with_nan;

impl Int for u32 {
    const BITS: u32 = u32::BITS;

    ghost BITS = { 32 };

    ghost nat = { λ x. x };

    ghost wide = { Prim.search rules };

    ghost eqs = { Prim.search rules };

    ghost cmps = { Prim.search rules };

    fn from_u32(x: u32) -> u32 {
        x
    }

    fn low_u32(self) -> u32 {
        self
    }

    fn shl(self, by: u32) -> u32 {
        if by < 32 { self << by } else { 0 }
    }

    fn shr(self, by: u32) -> u32 {
        if by < 32 { self >> by } else { 0 }
    }

    fn not(self) -> u32 {
        !self
    }

    fn bitand(self, other: u32) -> u32 {
        self & other
    }

    fn bitor(self, other: u32) -> u32 {
        self | other
    }

    fn wrapping_add(self, other: u32) -> u32 {
        self.wrapping_add(other)
    }

    fn wrapping_sub(self, other: u32) -> u32 {
        self.wrapping_sub(other)
    }

    fn wrapping_mul(self, other: u32) -> u32 {
        self.wrapping_mul(other)
    }

    fn leading_zeros(self) -> u32 {
        self.leading_zeros()
    }
}

impl HInt for u32 {
    ghost mulh = { exact (2 ^ 30) };

    fn wmulh(self, other: u32) -> u32 {
        ((u64::from(self) * u64::from(other)) >> 32) as u32
    }
}

impl Layout for f32 {
    type Int = u32;

    const BITS: u32 = 32;

    const SIG_BITS: u32 = 23;

    const EXP_BITS: u32 = 8;

    const EXP_BIAS: u32 = 127;

    const SIGN_MASK: u32 = 0x8000_0000;

    const SIG_MASK: u32 = 0x007f_ffff;

    const EXP_MASK: u32 = 0x7f80_0000;

    const IMPLICIT_BIT: u32 = 0x0080_0000;

    const QUIET_NAN: u32 = 0x7fc0_0000;

    ghost BITS = { 32 };

    ghost SIG_BITS = { 23 };

    ghost EXP_BITS = { 8 };

    ghost EXP_BIAS = { 127 };

    ghost SIGN_MASK = { 0x8000_0000 };

    ghost SIG_MASK = { 0x007f_ffff };

    ghost EXP_MASK = { 0x7f80_0000 };

    ghost IMPLICIT_BIT = { 0x0080_0000 };

    ghost QUIET_NAN = { 0x7fc0_0000 };

    ghost shape = { shape_of binary32 };

    ghost fields = { Prim.search rules };

    ghost whole = { Prim.search rules };

    ghost sound = { format_sound binary32 };
}

impl Width for f32 {
    ghost fmt = { binary32 };

    ghost val = { λ x. x };

    ghost shaped = { Prim.search rules };

    ghost eqs = { Prim.search rules };

    ghost cmps = { Prim.search rules };

    ghost can_add = { Prim.search rules };

    ghost adds = { Prim.search rules };

    ghost can_sub = { Prim.search rules };

    ghost subs = { Prim.search rules };

    ghost can_mul = { Prim.search rules };

    ghost muls = { Prim.search rules };

    ghost can_div = { Prim.search rules };

    ghost divs = { Prim.search rules };

    ghost can_neg = { Prim.search rules };

    ghost negs = { Prim.search rules };

    fn is_nan(self) -> bool {
        f32::is_nan(self)
    }

    #[tactic(auto, using(crate::proofs::Patterns::only_nan, crate::proofs::Patterns::pattern_of))]
    fn pattern(self) -> Option<u32> {
        // `to_bits` is not defined at NaN, so that is told first.
        if self.is_nan() {
            None
        } else {
            Some(self.to_bits())
        }
    }

    fn from_pattern(bits: u32) -> f32 {
        f32_from_bits_with_nan(bits)
    }
}
