// The root by longhand: one binary digit at a time.
ghost use Rattle.std.specs.Prelude.{◌≡◌, ℕ, suc, ◌+◌, ◌-◌, ◌*◌, ◌/◌, ◌%◌, ◌^◌, ◌<◌, ◌≤◌};
ghost use Rattle.width.specs.Shape.{infinity};
ghost use Rattle.rootlaws.specs.Longhand.{Held};
ghost use Rattle.rootlaws.specs.Roots.{RootBits, NearestRoot};
ghost use Rattle.rootlaws.specs.Split.{sig_of, exp_of, word_of, lift};
ghost use Rattle.rootlaws.specs.Whole.{Nearest};

use crate::floats::float_root;
use width::{Int, Layout, Width};

/// The root so far, what its square leaves, and the digits still to come.
#[derive(Clone, Copy)]
struct Hand<I> {
    root: I,
    rem: I,
    word: I,
}

// What the next digit is drawn from, and what a digit 1 would take of it: the square of twice the
// root and one lies four times the root and one above four times the root's square.
fn trial<L: Layout>(hand: Hand<L::Int>) -> (L::Int, L::Int)
    ensures drawn { L.Int.Int.nat result.0 ≡ (L.Int.Int.nat hand.rem * 4 % 2 ^ L.Int.Int.BITS + L.Int.Int.nat hand.word / 2 ^ (L.Layout.shape.sig + L.Layout.shape.half)) % 2 ^ L.Int.Int.BITS }
    ensures taken { L.Int.Int.nat result.1 ≡ (L.Int.Int.nat hand.root * 4 % 2 ^ L.Int.Int.BITS + 1 % 2 ^ L.Int.Int.BITS) % 2 ^ L.Int.Int.BITS }
{
    let digits = hand.word.shr(L::BITS - 2);
    let drawn = hand.rem.shl(2).wrapping_add(digits);
    let taken = hand.root.shl(2).wrapping_add(L::Int::from_u32(1));
    (drawn, taken)
}

// Draws the next digit of the root.
fn draw<L: Layout>(hand: Hand<L::Int>) -> Hand<L::Int>
    ensures { (M j : ℕ) → j ≤ L.Layout.shape.sig → Held (2 ^ (L.Layout.shape.sig + L.Layout.shape.half)) M j (L.Int.Int.nat hand.root) (L.Int.Int.nat hand.rem) (L.Int.Int.nat hand.word) → Held (2 ^ (L.Layout.shape.sig + L.Layout.shape.half)) M (suc j) (L.Int.Int.nat result.root) (L.Int.Int.nat result.rem) (L.Int.Int.nat result.word) }
{
    let (drawn, taken) = trial::<L>(hand);
    let root = hand.root.shl(1);
    let word = hand.word.shl(2);
    if drawn < taken {
        Hand {
            root,
            rem: drawn,
            word,
        }
    } else {
        let root = root.wrapping_add(L::Int::from_u32(1));
        Hand {
            root,
            rem: drawn.wrapping_sub(taken),
            word,
        }
    }
}

// The whole number nearest to the root of `word` times a power of 4, digit by digit.
fn drawn_root<L: Layout>(word: L::Int) -> L::Int
    requires { (2 ^ (L.Layout.shape.sig + L.Layout.shape.half) ≤ L.Int.Int.nat word) × (L.Int.Int.nat word < 4 * 2 ^ (L.Layout.shape.sig + L.Layout.shape.half)) }
    ensures { Nearest (L.Int.Int.nat word * 2 ^ lift L.Layout.shape) (L.Int.Int.nat result) }
{
    let zero = L::Int::from_u32(0);
    let mut hand = Hand {
        root: zero,
        rem: zero,
        word,
    };
    // The loop has no condition of its own, so that it leaves with the finished root.
    let mut places = 0..L::SIG_BITS;
    loop {
        hand = draw::<L>(hand);
        if places.next().is_none() {
            break rounded(hand);
        }
    }
}

// The root, or one more where what is left is past it.
fn rounded<I: Int>(hand: Hand<I>) -> I
    ensures up { I.Int.nat hand.root < I.Int.nat hand.rem → I.Int.nat result ≡ (I.Int.nat hand.root + 1 % 2 ^ I.Int.BITS) % 2 ^ I.Int.BITS }
    ensures down { I.Int.nat hand.rem ≤ I.Int.nat hand.root → I.Int.nat result ≡ I.Int.nat hand.root }
{
    if hand.root < hand.rem {
        hand.root.wrapping_add(I::from_u32(1))
    } else {
        hand.root
    }
}

// A positive number's significand with its leading one, and its exponent plus the bias. A
// subnormal is brought to a leading one by its count of leading zero bits.
fn normalized<L: Layout>(ix: L::Int) -> (L::Int, u32)
    requires { (0 < L.Int.Int.nat ix) × (L.Int.Int.nat ix < infinity L.Layout.shape) }
    ensures sig { L.Int.Int.nat result.0 ≡ sig_of L.Layout.shape (L.Int.Int.nat ix) }
    ensures exp { result.1 ≡ exp_of L.Layout.shape (L.Int.Int.nat ix) }
{
    if ix < L::IMPLICIT_BIT {
        let n = ix.leading_zeros() - L::EXP_BITS;
        (ix.shl(n), 1 + L::EXP_BIAS - n)
    } else {
        let sig = ix.bitand(L::SIG_MASK).bitor(L::IMPLICIT_BIT);
        (sig, ix.shr(L::SIG_BITS).low_u32() + L::EXP_BIAS)
    }
}

// The significand at the top of a word, or one below it, such that the number is a power of 4
// times the word.
#[tactic(auto, using(crate::proofs::Normal::word_even, crate::proofs::Normal::word_odd))]
fn word_of<L: Layout>(sig: L::Int, exp: u32) -> L::Int
    requires { L.Int.Int.nat sig < 2 * 2 ^ L.Layout.shape.sig }
    ensures { L.Int.Int.nat result ≡ word_of L.Layout.shape exp (L.Int.Int.nat sig) }
{
    if exp % 2 == 0 {
        sig.shl(L::EXP_BITS - 1)
    } else {
        sig.shl(L::EXP_BITS)
    }
}

// The root of a positive finite number: half the exponent, and the root of the word.
fn positive_root<L: Layout>(ix: L::Int) -> L::Int
    requires { (0 < L.Int.Int.nat ix) × (L.Int.Int.nat ix < infinity L.Layout.shape) }
    ensures { RootBits L.Layout.shape (L.Int.Int.nat ix) (L.Int.Int.nat result) }
{
    let (sig, exp) = normalized::<L>(ix);
    let word = word_of::<L>(sig, exp);
    let m = drawn_root::<L>(word);
    let e = L::Int::from_u32(exp / 2).shl(L::SIG_BITS);
    m.bitand(L::SIG_MASK).bitor(e)
}

// The tests stand in the order of the ported root, which answers a status too.
/// The root of the number with the pattern `ix`, as a pattern.
pub fn longhand<L: Layout>(ix: L::Int) -> L::Int
    ensures { RootBits L.Layout.shape (L.Int.Int.nat ix) (L.Int.Int.nat result) }
{
    // ±0
    if L::is_zero(ix) {
        return ix;
    }
    // Positive infinity
    if L::is_infinity(ix) {
        return ix;
    }
    // NaN or negative
    if L::is_past_infinity(ix) {
        return L::QUIET_NAN;
    }
    positive_root::<L>(ix)
}

/// The nearest root of a float, by longhand.
pub fn longhand_root<W: Width>(x: W) -> W
    ensures { NearestRoot W.Width.fmt (W.Width.val x) (W.Width.val result) }
{
    float_root(x, |ix| longhand::<W>(ix))
}
