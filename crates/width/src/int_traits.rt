// The integers that hold patterns.
ghost use Rattle.std.specs.Prelude.{◌≡◌, ℕ, ◌+◌, ◌-◌, ◌*◌, ◌/◌, ◌%◌, ◌^◌, ◌<◌, ◌≤◌, ◌==◌, bit_and, bit_or, Some};
ghost use Rattle.std.specs.Ordering.{nat_cmp};
ghost use Rattle.std.specs.Int.Count.{count_leading_zeros};

/// An unsigned integer: a number below 2^BITS. Nothing here panics: a sum, a difference and a
/// product wrap, and a shift by `BITS` or more leaves nothing.
pub trait Int: Copy + PartialOrd {
    /// How many bits it has.
    const BITS: u32;

    ghost BITS: { ℕ };

    ghost nat: { Self → ℕ };

    // This one and the next cut where the integer is the shorter, which From and TryFrom do not.
    fn from_u32(x: u32) -> Self
        ensures { nat result ≡ x % 2 ^ BITS };

    fn low_u32(self) -> u32
        ensures { result ≡ nat self % 2 ^ 32 };

    // Methods and not operators: an operator takes two laws and a proof at each use, and a shift
    // operator is not defined at `BITS` or more.
    fn shl(self, by: u32) -> Self
        ensures { nat result ≡ nat self * 2 ^ by % 2 ^ BITS };

    fn shr(self, by: u32) -> Self
        ensures value { nat result ≡ nat self / 2 ^ by }
        ensures within { nat self < 2 ^ BITS };

    fn not(self) -> Self
        ensures { nat result ≡ 2 ^ BITS - 1 - nat self };

    fn bitand(self, other: Self) -> Self
        ensures { nat result ≡ bit_and (nat self) (nat other) };

    fn bitor(self, other: Self) -> Self
        ensures { nat result ≡ bit_or (nat self) (nat other) };

    fn wrapping_add(self, other: Self) -> Self
        ensures { nat result ≡ (nat self + nat other) % 2 ^ BITS };

    fn wrapping_sub(self, other: Self) -> Self
        ensures { nat result ≡ (nat self + 2 ^ BITS - nat other) % 2 ^ BITS };

    fn wrapping_mul(self, other: Self) -> Self
        ensures { nat result ≡ nat self * nat other % 2 ^ BITS };

    fn leading_zeros(self) -> u32
        ensures { result ≡ count_leading_zeros BITS (nat self) };

    ghost wide: { 16 ≤ BITS };

    ghost eqs: { (x y : Self) → Self.PartialEq.eq x y ≡ (nat x == nat y) };

    ghost cmps: { (x y : Self) → Self.PartialOrd.partial_cmp x y ≡ Some (nat_cmp (nat x) (nat y)) };
}

/// An integer with the upper half of a product.
pub trait HInt: Int {
    ghost mulh: { ℕ → ℕ → ℕ };

    /// The upper half of the product: exact up to 32 bits, and at 64 bits at most 2 too low.
    fn wmulh(self, other: Self) -> Self
        ensures { Self.Int.nat result ≡ mulh (Self.Int.nat self) (Self.Int.nat other) };
}
