// Generic square root: a table of first guesses, then Goldschmidt's iteration, then one decision.
//
// It works around `m_u2`, a fixed-point number with two whole bits in [1, 4), such that the reading
// is a power of 4 times it. `r_u0` is a number below 1 that comes near to `1 / sqrt(m_u2)`, and
// `s_u2` comes near to `sqrt(m_u2)`.
ghost use Rattle.std.specs.Prelude.{◌≡◌, ℕ, suc, ◌+◌, ◌-◌, ◌*◌, ◌/◌, ◌%◌, ◌^◌, ◌<◌, true, false, not, slice_index};
ghost use Rattle.std.specs.Float.{binary32, binary64};
ghost use Rattle.width.specs.Shape.{bias, infinity};
ghost use Rattle.rootlaws.specs.Plan.{Keeps};
ghost use Rattle.rootlaws.specs.Roots.{RootBits, NearestRoot};
ghost use Rattle.rootlaws.specs.Split.{Stored, sig_of, exp_of, word_of, word_at, lift};
ghost use Rattle.rootlaws.specs.Table.{guesses};
ghost use Rattle.rootlaws.specs.Whole.{Nearest};
ghost use Rattle.rootlaws.specs.Words.{Kept};
ghost use Rattle.root.specs.Normal.{is_normal};
ghost use Rattle.root.specs.Status.{status_of};
ghost use Rattle.rootlaws.proofs.Plans.{narrow_keeps, wide_keeps};

use crate::env::{FpResult, Status};
use crate::floats::float_root;
use crate::goldschmidt::goldschmidt;
use width::{HInt, Int, Layout, Width};

/// A number of 16 bits below 1, near to `1 / sqrt(x)`, for each value of the lowest exponent bit
/// and the top six bits of the significand.
const RSQRT_TAB: [u16; 128] = [
    0xb451, 0xb2f0, 0xb196, 0xb044, 0xaef9, 0xadb6, 0xac79, 0xab43, 0xaa14, 0xa8eb, 0xa7c8, 0xa6aa,
    0xa592, 0xa480, 0xa373, 0xa26b, 0xa168, 0xa06a, 0x9f70, 0x9e7b, 0x9d8a, 0x9c9d, 0x9bb5, 0x9ad1,
    0x99f0, 0x9913, 0x983a, 0x9765, 0x9693, 0x95c4, 0x94f8, 0x9430, 0x936b, 0x92a9, 0x91ea, 0x912e,
    0x9075, 0x8fbe, 0x8f0a, 0x8e59, 0x8daa, 0x8cfe, 0x8c54, 0x8bac, 0x8b07, 0x8a64, 0x89c4, 0x8925,
    0x8889, 0x87ee, 0x8756, 0x86c0, 0x862b, 0x8599, 0x8508, 0x8479, 0x83ec, 0x8361, 0x82d8, 0x8250,
    0x81c9, 0x8145, 0x80c2, 0x8040, 0xff02, 0xfd0e, 0xfb25, 0xf947, 0xf773, 0xf5aa, 0xf3ea, 0xf234,
    0xf087, 0xeee3, 0xed47, 0xebb3, 0xea27, 0xe8a3, 0xe727, 0xe5b2, 0xe443, 0xe2dc, 0xe17a, 0xe020,
    0xdecb, 0xdd7d, 0xdc34, 0xdaf1, 0xd9b3, 0xd87b, 0xd748, 0xd61a, 0xd4f1, 0xd3cd, 0xd2ad, 0xd192,
    0xd07b, 0xcf69, 0xce5b, 0xcd51, 0xcc4a, 0xcb48, 0xca4a, 0xc94f, 0xc858, 0xc764, 0xc674, 0xc587,
    0xc49d, 0xc3b7, 0xc2d4, 0xc1f4, 0xc116, 0xc03c, 0xbf65, 0xbe90, 0xbdbe, 0xbcef, 0xbc23, 0xbb59,
    0xba91, 0xb9cc, 0xb90a, 0xb84a, 0xb78c, 0xb6d0, 0xb617, 0xb560,
];

/// What a layout brings to the root.
pub trait SqrtHelper: Layout {
    /// The integer of the first set of rounds.
    type ISet2: HInt;

    /// Rounds at `ISet2`, and at the layout's own integer.
    const SET2_ROUNDS: u32;

    const FINAL_ROUNDS: u32;

    ghost SET2_ROUNDS: { ℕ };

    ghost FINAL_ROUNDS: { ℕ };

    // This one and the next cut and shift, which From and TryFrom do not.
    /// The upper bits of a word.
    fn upper(m_u2: Self::Int) -> Self::ISet2
        ensures { Self.ISet2.Int.nat result ≡ Self.Int.Int.nat m_u2 / 2 ^ (Self.Int.Int.BITS - Self.ISet2.Int.BITS) };

    /// A number below 1 in the longer word.
    fn widened(r_u0: Self::ISet2) -> Self::Int
        ensures { Self.Int.Int.nat result ≡ Self.ISet2.Int.nat r_u0 * 2 ^ (Self.Int.Int.BITS - Self.ISet2.Int.BITS) % 2 ^ Self.Int.Int.BITS };

    ghost keeps: { Keeps (record { bits = Self.Int.Int.BITS; short_bits = Self.ISet2.Int.BITS; mulh = Self.Int.HInt.mulh; short_mulh = Self.ISet2.HInt.mulh; short_rounds = SET2_ROUNDS; rounds = FINAL_ROUNDS }) Self.Layout.shape };
}

impl SqrtHelper for f32 {
    type ISet2 = u32;

    const SET2_ROUNDS: u32 = 0;

    const FINAL_ROUNDS: u32 = 3;

    ghost SET2_ROUNDS = { 0 };

    ghost FINAL_ROUNDS = { 3 };

    ghost keeps = { narrow_keeps };

    fn upper(m_u2: u32) -> u32 {
        m_u2
    }

    fn widened(r_u0: u32) -> u32 {
        r_u0
    }
}

impl SqrtHelper for f64 {
    type ISet2 = u32;

    const SET2_ROUNDS: u32 = 2;

    const FINAL_ROUNDS: u32 = 2;

    ghost SET2_ROUNDS = { 2 };

    ghost FINAL_ROUNDS = { 2 };

    ghost keeps = { wide_keeps };

    fn upper(m_u2: u64) -> u32 {
        (m_u2 >> 32) as u32
    }

    fn widened(r_u0: u32) -> u64 {
        u64::from(r_u0) << 32
    }
}

fn entry(i: u32) -> u16
    requires { i < 128 }
    ensures { result ≡ slice_index guesses i }
{
    RSQRT_TAB[i as usize]
}

// The first guess at `1 / sqrt(m_u2)`, from the lowest exponent bit and the top six bits of the
// significand.
fn first_guess<F: SqrtHelper>(ix: F::Int) -> F::ISet2
    ensures { F.ISet2.Int.nat result ≡ slice_index guesses (F.Int.Int.nat ix / 2 ^ (F.Layout.shape.sig - 6) % 128) * 2 ^ (F.ISet2.Int.BITS - 16) }
{
    let i = ix.shr(F::SIG_BITS - 6).low_u32() % 128;
    F::ISet2::from_u32(u32::from(entry(i))).shl(F::ISet2::BITS - 16)
}

// What is kept of the root after both sets of rounds.
fn kept<F: SqrtHelper>(ix: F::Int, m_u2: F::Int) -> F::Int
    ensures { F.Int.Int.nat m_u2 ≡ word_at F.Layout.shape (F.Int.Int.nat ix) → Kept (F.Int.Int.nat m_u2 * 2 ^ lift F.Layout.shape) (F.Int.Int.nat result) }
{
    let (r2_u0, _) = goldschmidt(first_guess::<F>(ix), F::upper(m_u2), F::SET2_ROUNDS, false);
    let (_, s_u2) = goldschmidt(F::widened(r2_u0), m_u2, F::FINAL_ROUNDS, true);
    s_u2.shr(F::EXP_BITS - 2)
}

// The sign bit of `m^2 + m - 2^shift m_u2`, in words that wrap: whether the root lies past
// `m + 1/2`.
fn past_half<I: Int>(m_u2: I, m: I, shift: u32) -> I
    ensures { I.Int.nat result ≡ (I.Int.nat m + 2 ^ I.Int.BITS - (I.Int.nat m_u2 * 2 ^ shift % 2 ^ I.Int.BITS + 2 ^ I.Int.BITS - I.Int.nat m * I.Int.nat m % 2 ^ I.Int.BITS) % 2 ^ I.Int.BITS) % 2 ^ I.Int.BITS / 2 ^ (I.Int.BITS - 1) }
{
    let d0 = m_u2.shl(shift).wrapping_sub(m.wrapping_mul(m));
    let d1 = m.wrapping_sub(d0);
    d1.shr(I::BITS - 1)
}

// The last step: `m`, or one more.
fn decided<F: SqrtHelper>(m_u2: F::Int, m: F::Int) -> F::Int
    ensures { F.Int.Int.nat m_u2 < 4 * 2 ^ (F.Layout.shape.sig + F.Layout.shape.half) → Kept (F.Int.Int.nat m_u2 * 2 ^ lift F.Layout.shape) (F.Int.Int.nat m) → Nearest (F.Int.Int.nat m_u2 * 2 ^ lift F.Layout.shape) (F.Int.Int.nat result) }
{
    // `m_u2` has `BITS - 2` places after its point, and the square of `m` has `2 * SIG_BITS`.
    let shift = 2 * F::SIG_BITS - (F::BITS - 2);
    m.wrapping_add(past_half(m_u2, m, shift))
}

// The exponent field of the root, with the exponent in place.
fn halved_in_place<F: SqrtHelper>(ix: F::Int) -> F::Int
    ensures { F.Int.Int.nat result ≡ (F.Int.Int.nat ix / 2 ^ F.Layout.shape.sig + bias F.Layout.shape) / 2 % 2 ^ suc F.Layout.shape.half * 2 ^ F.Layout.shape.sig }
{
    let half_bias = F::Int::from_u32(F::EXP_BIAS).shl(F::SIG_BITS - 1);
    ix.shr(1).wrapping_add(half_bias).bitand(F::EXP_MASK)
}

// Reduces the argument such that `x = 4^e * m`, with the exponent in place: the word `m_u2`, and
// the exponent field of the root.
fn reduced_in_place<F: SqrtHelper>(ix: F::Int) -> (F::Int, F::Int)
    ensures word { F.Int.Int.nat result.0 ≡ word_at F.Layout.shape (F.Int.Int.nat ix) }
    ensures exp { F.Int.Int.nat result.1 ≡ (F.Int.Int.nat ix / 2 ^ F.Layout.shape.sig + bias F.Layout.shape) / 2 % 2 ^ suc F.Layout.shape.half * 2 ^ F.Layout.shape.sig }
{
    let e_noshift = halved_in_place::<F>(ix);
    let even = ix.bitand(F::IMPLICIT_BIT) == F::Int::from_u32(0);
    if even {
        (ix.shl(F::EXP_BITS).bitor(F::SIGN_MASK), e_noshift)
    } else {
        (
            ix.shl(F::EXP_BITS - 1).bitand(F::SIGN_MASK.not()),
            e_noshift,
        )
    }
}

// The same with the exponent shifted out of the pattern, as `top`, which wraps below zero.
fn reduced_shifted<F: SqrtHelper>(ix: F::Int, top: u32) -> (F::Int, F::Int)
    ensures word { top % 2 ≡ F.Int.Int.nat ix / 2 ^ F.Layout.shape.sig % 2 → F.Int.Int.nat result.0 ≡ word_at F.Layout.shape (F.Int.Int.nat ix) }
    ensures exp { F.Int.Int.nat result.1 ≡ (top + bias F.Layout.shape) % 2 ^ 32 / 2 % 2 ^ F.Int.Int.BITS * 2 ^ F.Layout.shape.sig % 2 ^ F.Int.Int.BITS }
{
    let m_u2 = ix.bitor(F::IMPLICIT_BIT).shl(F::EXP_BITS);
    let e = top.wrapping_add(F::EXP_BIAS) >> 1;
    let exp = F::Int::from_u32(e).shl(F::SIG_BITS);
    if top % 2 == 1 {
        (m_u2.shr(1), exp)
    } else {
        (m_u2, exp)
    }
}

// A positive number: its pattern, brought to a leading one where it is subnormal, and its exponent field,
// which then wraps below zero.
#[derive(Clone, Copy)]
struct Positive<I> {
    ix: I,
    top: u32,
}

// The number `b` that the pattern stands for is the caller's, so no field of `Positive` names it.
//
// The exponent is kept in place where the pattern fits into 32 bits, which saves the shifts: two forms, as in the source.
fn reduced<F: SqrtHelper>(x: Positive<F::Int>) -> (F::Int, F::Int)
    ensures { (b : ℕ) → Stored F.Layout.shape b (F.Int.Int.nat x.ix) x.top → (F.Int.Int.nat result.0 ≡ word_of F.Layout.shape (exp_of F.Layout.shape b) (sig_of F.Layout.shape b)) × (F.Int.Int.nat result.0 ≡ word_at F.Layout.shape (F.Int.Int.nat x.ix)) × (F.Int.Int.nat result.1 ≡ exp_of F.Layout.shape b / 2 * 2 ^ F.Layout.shape.sig) }
{
    if F::BITS <= 32 {
        reduced_in_place::<F>(x.ix)
    } else {
        reduced_shifted::<F>(x.ix, x.top)
    }
}

// The root of a positive number.
fn root_at<F: SqrtHelper>(x: Positive<F::Int>) -> F::Int
    ensures { (b : ℕ) → Stored F.Layout.shape b (F.Int.Int.nat x.ix) x.top → RootBits F.Layout.shape b (F.Int.Int.nat result) }
{
    let (m_u2, exp) = reduced::<F>(x);
    let m = decided::<F>(m_u2, kept::<F>(x.ix, m_u2));
    m.bitand(F::SIG_MASK).bitor(exp)
}

// A subnormal brought to a leading one by its count of leading zero bits. The shift is taken off
// the exponent, which the table's index and the reduction read.
fn normalized<F: SqrtHelper>(ix: F::Int) -> Positive<F::Int>
    requires { (0 < F.Int.Int.nat ix) × (F.Int.Int.nat ix < 2 ^ F.Layout.shape.sig) }
    ensures { Stored F.Layout.shape (F.Int.Int.nat ix) (F.Int.Int.nat result.ix) result.top }
{
    let n = ix.leading_zeros() - F::EXP_BITS;
    Positive {
        ix: ix.shl(n).wrapping_sub(F::Int::from_u32(n).shl(F::SIG_BITS)),
        top: 1u32.wrapping_sub(n),
    }
}

// Whether the pattern is not that of a positive normal number: two forms, as in the source.
fn special_case<F: SqrtHelper>(ix: F::Int) -> bool
    ensures { F.Int.Int.nat ix < 2 ^ F.Int.Int.BITS → result ≡ not (is_normal F.Layout.shape (F.Int.Int.nat ix)) }
{
    if F::BITS <= 32 {
        let exp_lsb = F::IMPLICIT_BIT;
        ix.wrapping_sub(exp_lsb) >= F::EXP_MASK.wrapping_sub(exp_lsb)
    } else {
        let top = ix.shr(F::SIG_BITS).low_u32();
        let exp_sat = 2 * F::EXP_BIAS + 1;
        top.wrapping_sub(1) >= exp_sat - 1
    }
}

// The root of what is no positive normal number. The tests stand in the source's order.
fn special_root<F: SqrtHelper>(ix: F::Int) -> FpResult<F::Int>
    requires { is_normal F.Layout.shape (F.Int.Int.nat ix) ≡ false }
    ensures root { RootBits F.Layout.shape (F.Int.Int.nat ix) (F.Int.Int.nat result.val) }
    ensures status { result.status ≡ status_of F.Layout.shape (F.Int.Int.nat ix) }
{
    // +/-0
    if F::is_zero(ix) {
        return FpResult::ok(ix);
    }
    // Positive infinity
    if F::is_infinity(ix) {
        return FpResult::ok(ix);
    }
    // NaN or negative
    if F::is_past_infinity(ix) {
        return FpResult::new(F::QUIET_NAN, Status::Invalid);
    }
    FpResult::ok(root_at::<F>(normalized::<F>(ix)))
}

/// The root of the number with the pattern `ix`, as a pattern, with its status.
pub fn sqrt_round<F: SqrtHelper>(ix: F::Int) -> FpResult<F::Int>
    ensures root { RootBits F.Layout.shape (F.Int.Int.nat ix) (F.Int.Int.nat result.val) }
    ensures status { result.status ≡ status_of F.Layout.shape (F.Int.Int.nat ix) }
{
    let top = ix.shr(F::SIG_BITS).low_u32();
    if special_case::<F>(ix) {
        special_root::<F>(ix)
    } else {
        FpResult::ok(root_at::<F>(Positive { ix, top }))
    }
}

/// The square root of a float of either width.
pub fn square_root<W: Width + SqrtHelper>(x: W) -> W
    ensures { NearestRoot W.Width.fmt (W.Width.val x) (W.Width.val result) }
{
    float_root(x, |ix| sqrt_round::<W>(ix).val)
}

// The next two keep libm's names.

/// The square root of `x` (f64).
pub fn sqrt(x: f64) -> f64
    ensures { NearestRoot binary64 x result }
{
    square_root::<f64>(x)
}

/// The square root of `x` (f32).
pub fn sqrtf(x: f32) -> f32
    ensures { NearestRoot binary32 x result }
{
    square_root::<f32>(x)
}
