// The wide width: `u64` and `f64`.
// `narrow.rt` has the same impls, but for `wmulh`, with its own constants and std's functions of its types. A macro may write
// no impl, and default bodies over std's operators would need more laws than they save.
ghost use Rattle.std.specs.Prelude.{◌^◌};
ghost use Rattle.std.specs.Float.{binary64};
ghost use Rattle.width.specs.Product.{halves};
ghost use Rattle.width.specs.Shape.{shape_of, format_sound};
ghost use Rattle.std.proofs.Common.{rules};

use crate::float_traits::{Layout, Width};
use crate::int_traits::{HInt, Int};
use std::num::f64_from_bits_with_nan;

impl Int for u64 {
    const BITS: u32 = u64::BITS;

    ghost BITS = { 64 };

    ghost nat = { λ x. x };

    ghost wide = { Prim.search rules };

    ghost eqs = { Prim.search rules };

    ghost cmps = { Prim.search rules };

    fn from_u32(x: u32) -> u64 {
        u64::from(x)
    }

    fn low_u32(self) -> u32 {
        (self % 0x1_0000_0000) as u32
    }

    fn shl(self, by: u32) -> u64 {
        if by < 64 { self << by } else { 0 }
    }

    fn shr(self, by: u32) -> u64 {
        if by < 64 { self >> by } else { 0 }
    }

    fn not(self) -> u64 {
        !self
    }

    fn bitand(self, other: u64) -> u64 {
        self & other
    }

    fn bitor(self, other: u64) -> u64 {
        self | other
    }

    fn wrapping_add(self, other: u64) -> u64 {
        self.wrapping_add(other)
    }

    fn wrapping_sub(self, other: u64) -> u64 {
        self.wrapping_sub(other)
    }

    fn wrapping_mul(self, other: u64) -> u64 {
        self.wrapping_mul(other)
    }

    fn leading_zeros(self) -> u32 {
        self.leading_zeros()
    }
}

impl HInt for u64 {
    ghost mulh = { halves (2 ^ 32) };

    #[tactic(auto, using(crate::proofs::Products::halves_fit))]
    fn wmulh(self, other: u64) -> u64 {
        let (ah, al) = (self >> 32, self % 0x1_0000_0000);
        let (bh, bl) = (other >> 32, other % 0x1_0000_0000);
        ah * bh + ((ah * bl) >> 32) + ((al * bh) >> 32)
    }
}

impl Layout for f64 {
    type Int = u64;

    const BITS: u32 = 64;

    const SIG_BITS: u32 = 52;

    const EXP_BITS: u32 = 11;

    const EXP_BIAS: u32 = 1023;

    const SIGN_MASK: u64 = 0x8000_0000_0000_0000;

    const SIG_MASK: u64 = 0x000f_ffff_ffff_ffff;

    const EXP_MASK: u64 = 0x7ff0_0000_0000_0000;

    const IMPLICIT_BIT: u64 = 0x0010_0000_0000_0000;

    const QUIET_NAN: u64 = 0x7ff8_0000_0000_0000;

    ghost BITS = { 64 };

    ghost SIG_BITS = { 52 };

    ghost EXP_BITS = { 11 };

    ghost EXP_BIAS = { 1023 };

    ghost SIGN_MASK = { 0x8000_0000_0000_0000 };

    ghost SIG_MASK = { 0x000f_ffff_ffff_ffff };

    ghost EXP_MASK = { 0x7ff0_0000_0000_0000 };

    ghost IMPLICIT_BIT = { 0x0010_0000_0000_0000 };

    ghost QUIET_NAN = { 0x7ff8_0000_0000_0000 };

    ghost shape = { shape_of binary64 };

    ghost fields = { Prim.search rules };

    ghost whole = { Prim.search rules };

    ghost sound = { format_sound binary64 };
}

impl Width for f64 {
    ghost fmt = { binary64 };

    ghost val = { λ x. x };

    ghost shaped = { Prim.search rules };

    ghost eqs = { Prim.search rules };

    ghost cmps = { Prim.search rules };

    ghost can_add = { Prim.search rules };

    ghost adds = { Prim.search rules };

    ghost can_sub = { Prim.search rules };

    ghost subs = { Prim.search rules };

    ghost can_mul = { Prim.search rules };

    ghost muls = { Prim.search rules };

    ghost can_div = { Prim.search rules };

    ghost divs = { Prim.search rules };

    ghost can_neg = { Prim.search rules };

    ghost negs = { Prim.search rules };

    fn is_nan(self) -> bool {
        f64::is_nan(self)
    }

    #[tactic(auto, using(crate::proofs::Patterns::only_nan, crate::proofs::Patterns::pattern_of))]
    fn pattern(self) -> Option<u64> {
        // `to_bits` is not defined at NaN, so that is told first.
        if self.is_nan() {
            None
        } else {
            Some(self.to_bits())
        }
    }

    fn from_pattern(bits: u64) -> f64 {
        f64_from_bits_with_nan(bits)
    }
}
