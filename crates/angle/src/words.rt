// A number by the words of its pattern.
ghost use Rattle.std.specs.Prelude.{◌≡◌, T, ⊤, ◌%◌, ◌/◌, ◌^◌, true, false, not, ◌&&◌, ◌==◌, MatchOption, is_nan};
ghost use Rattle.std.specs.Float.{is_sign_negative};
ghost use Rattle.std.specs.Float.Ieee.{fits};
ghost use Rattle.anglelaws.specs.Words.{top_word, low_word, is_size, one_word, infinity_word, weight};
ghost use Rattle.angle.specs.Words.{WordsOf};

use crate::numbers::Numerals;
use std::alloc::AllocError;
use width::{Int, Layout, Width};

/// What the branches of an angle read of a number: its sign bit, its top word with that bit
/// cleared, and what lies below the top word. The top word is the upper 32 bits of a wide pattern
/// and the whole narrow one, below which there is nothing.
#[derive(Clone, Copy)]
pub struct Words {
    pub negative: bool,
    pub ix: u32,
    pub lx: u32,
}

impl Words {
    /// Whether the size is the number with this top word and nothing below it.
    pub fn size_is(self, top: u32) -> bool
        ensures { result ≡ (self.ix == top && self.lx == 0) }
    {
        self.ix == top && self.lx == 0
    }
}

/// A number, which is no NaN, with its words.
pub struct Number<W: Width> {
    pub value: W,
    pub negative: bool,
    pub ix: u32,
    pub lx: u32,
    pub ghost number: { is_nan (W.Width.val value) ≡ false },
    pub ghost sign: { negative ≡ is_sign_negative (W.Width.val value) },
    pub ghost top: { ix ≡ top_word W.Width.fmt (W.Width.val value) },
    pub ghost low: { lx ≡ low_word W.Width.fmt (W.Width.val value) },
}

impl<W: Width> Copy for Number<W> {}

// Not derived, since the struct has ghost fields.
impl<W: Width> Clone for Number<W> {
    ghost is_clone = { λ n m. m ≡ n };

    ghost is_infallible = { λ _. ⊤ };

    fn clone(&self) -> Result<Self, AllocError> {
        Ok(*self)
    }
}

impl<W: Width> Number<W> {
    /// Its words alone.
    pub fn words(&self) -> Words
        ensures { WordsOf W.Width.fmt (W.Width.val self.now.value) result }
    {
        Words {
            negative: self.negative,
            ix: self.ix,
            lx: self.lx,
        }
    }

    /// Whether the size is the number with this top word and nothing below it.
    pub fn size_is(&self, top: u32) -> bool
        ensures { result ≡ is_size W.Width.fmt top (W.Width.val self.now.value) }
    {
        self.words().size_is(top)
    }
}

impl<W: Numerals> Number<W> {
    /// Whether it is 1.
    pub fn is_one(&self) -> bool
        ensures { result ≡ (not (is_sign_negative (W.Width.val self.now.value)) && is_size W.Width.fmt (one_word W.Width.fmt) (W.Width.val self.now.value)) }
    {
        !self.negative && self.size_is(W::ONE_WORD)
    }

    pub fn is_infinite(&self) -> bool
        ensures { result ≡ (top_word W.Width.fmt (W.Width.val self.now.value) == infinity_word W.Width.fmt) }
    {
        self.ix == W::INFINITY_WORD
    }
}

// The top word of a pattern, with the sign bit.
fn high_word<W: Width>(bits: W::Int) -> u32
    ensures { result ≡ W.Int.Int.nat bits / weight W.Width.fmt % 2 ^ 32 }
{
    bits.shr(W::BITS.saturating_sub(32)).low_u32()
}

// What lies below the top word of a pattern: of a narrow one, nothing.
fn low_word<W: Width>(bits: W::Int) -> u32
    ensures { result ≡ W.Int.Int.nat bits % weight W.Width.fmt }
{
    if W::BITS > 32 { bits.low_u32() } else { 0 }
}

/// A number by its words, or `None` for NaN, whose pattern is never read.
#[tactic(auto, using(anglelaws::proofs::Words::nan_is, anglelaws::proofs::Words::nan_fits, anglelaws::proofs::Words::sign_is, anglelaws::proofs::Words::top_is, anglelaws::proofs::Words::low_is))]
pub fn read<W: Width>(x: W) -> Option<Number<W>>
    ensures value { MatchOption result (is_nan (W.Width.val x) ≡ true) (λ n. n.value ≡ x) }
    ensures fits { T (fits W.Width.fmt (W.Width.val x)) }
{
    let bits = x.pattern()?;
    let hx = high_word::<W>(bits);
    Some(Number {
        value: x,
        negative: hx >> 31 != 0,
        ix: hx & 0x7fff_ffff,
        lx: low_word::<W>(bits),
    })
}
