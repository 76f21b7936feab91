// The source's `Float` as two interfaces: what a pattern's fields are, and arithmetic.
ghost use Rattle.std.specs.Prelude.{◌≡◌, ℕ, ◌%◌, ◌<◌, MatchOption, Float, ◌==◌, nat_lt, to_bits};
ghost use Rattle.std.specs.Float.Ieee as Ieee;
ghost use Rattle.std.specs.Float.{Format};
ghost use Rattle.std.specs.Ordering.{float_partial_cmp};
ghost use Rattle.width.specs.Pattern.{PatternOf};
ghost use Rattle.width.specs.Shape.{Shape, Sound, Fields, shape_of, width as width_of, sign, infinity};

use crate::int_traits::{HInt, Int};
use std::ops::{Add, Div, Mul, Neg, Sub};

/// How a number is laid out in its pattern. It has no arithmetic, so that patterns for which there
/// is none can have a layout too.
pub trait Layout {
    type Int: HInt;

    const BITS: u32;

    const SIG_BITS: u32;

    const EXP_BITS: u32;

    const EXP_BIAS: u32;

    const SIGN_MASK: Self::Int;

    const SIG_MASK: Self::Int;

    const EXP_MASK: Self::Int;

    const IMPLICIT_BIT: Self::Int;

    const QUIET_NAN: Self::Int;

    ghost BITS: { ℕ };

    ghost SIG_BITS: { ℕ };

    ghost EXP_BITS: { ℕ };

    ghost EXP_BIAS: { ℕ };

    ghost SIGN_MASK: { Self.Int };

    ghost SIG_MASK: { Self.Int };

    ghost EXP_MASK: { Self.Int };

    ghost IMPLICIT_BIT: { Self.Int };

    ghost QUIET_NAN: { Self.Int };

    ghost shape: { Shape };

    /// Whether a pattern is that of +0 or -0.
    #[tactic(auto, using(crate::proofs::Zeros::zero_test))]
    final fn is_zero(ix: Self::Int) -> bool
        ensures { result ≡ (Self.Int.Int.nat ix % sign shape == 0) }
    {
        ix.shl(1) == Self::Int::from_u32(0)
    }

    /// Whether a pattern is that of positive infinity.
    final fn is_infinity(ix: Self::Int) -> bool
        ensures { result ≡ (Self.Int.Int.nat ix == infinity shape) }
    {
        ix == Self::EXP_MASK
    }

    /// Whether a pattern lies past positive infinity's: a NaN's, or one with the sign bit set.
    final fn is_past_infinity(ix: Self::Int) -> bool
        ensures { result ≡ nat_lt (infinity shape) (Self.Int.Int.nat ix) }
    {
        Self::EXP_MASK < ix
    }

    ghost fields: { Fields shape BITS SIG_BITS EXP_BITS EXP_BIAS (Self.Int.Int.nat SIGN_MASK)
        (Self.Int.Int.nat SIG_MASK) (Self.Int.Int.nat EXP_MASK) (Self.Int.Int.nat IMPLICIT_BIT)
        (Self.Int.Int.nat QUIET_NAN) };

    ghost whole: { Self.Int.Int.BITS ≡ width_of shape };

    ghost sound: { Sound shape };
}

/// A float: a layout with arithmetic, each operation rounded once to nearest, ties to even.
pub trait Width: Layout
    + Copy
    + PartialOrd
    + Add<Self, Output = Self>
    + Sub<Self, Output = Self>
    + Mul<Self, Output = Self>
    + Div<Self, Output = Self>
    + Neg<Output = Self> {
    ghost fmt: { Format };

    ghost val: { Self → Float };

    fn is_nan(self) -> bool
        ensures { result ≡ Ieee.is_nan (val self) };

    /// The pattern, or `None` for NaN, whose pattern is never read.
    fn pattern(self) -> Option<Self::Int>
        ensures { MatchOption result (val self ≡ Ieee.nan) (λ n. PatternOf fmt (val self) (Self.Int.Int.nat n)) };

    /// The number of a pattern; each NaN's pattern gives NaN.
    fn from_pattern(bits: Self::Int) -> Self
        ensures { val result ≡ Ieee.of_bits fmt (Self.Int.Int.nat bits) };

    /// Whether it lies below the other; false where one is NaN.
    final fn less_than(self, other: Self) -> bool
        ensures { result ≡ Ieee.lt (val self) (val other) }
    {
        self < other
    }

    /// Whether the two are the same number, -0 and +0 among them; false where one is NaN.
    final fn equals(self, other: Self) -> bool
        ensures { result ≡ Ieee.eq (val self) (val other) }
    {
        self == other
    }

    /// The pattern, and for NaN the quiet one with a clear sign.
    #[tactic(auto, using(crate::proofs::Patterns::quiet_nan))]
    final fn to_pattern(self) -> Self::Int
        ensures { Self.Int.Int.nat result ≡ to_bits fmt (val self) }
    {
        match self.pattern() {
            Some(bits) => bits,
            None => Self::QUIET_NAN,
        }
    }

    ghost eqs: { (x y : Self) → Self.PartialEq.eq x y ≡ Ieee.eq (val x) (val y) };

    ghost cmps: { (x y : Self) → Self.PartialOrd.partial_cmp x y ≡ float_partial_cmp (val x) (val y) };

    ghost shaped: { Self.Layout.shape ≡ shape_of fmt };

    ghost can_add: { (x y : Self) → Self.Add.can_add x y };

    ghost adds: { (x y r : Self) → Self.Add.add_gives x y r → val r ≡ Ieee.add fmt (val x) (val y) };

    ghost can_sub: { (x y : Self) → Self.Sub.can_sub x y };

    ghost subs: { (x y r : Self) → Self.Sub.sub_gives x y r → val r ≡ Ieee.sub fmt (val x) (val y) };

    ghost can_mul: { (x y : Self) → Self.Mul.can_mul x y };

    ghost muls: { (x y r : Self) → Self.Mul.mul_gives x y r → val r ≡ Ieee.mul fmt (val x) (val y) };

    ghost can_div: { (x y : Self) → Self.Div.can_div x y };

    ghost divs: { (x y r : Self) → Self.Div.div_gives x y r → val r ≡ Ieee.div fmt (val x) (val y) };

    ghost can_neg: { (x : Self) → Self.Neg.can_neg x };

    ghost negs: { (x r : Self) → Self.Neg.neg_gives x r → val r ≡ Ieee.neg (val x) };
}
