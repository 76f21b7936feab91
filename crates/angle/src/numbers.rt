// Small numbers, for formulas that serve both widths, and the top words of some.
ghost use Rattle.std.specs.Prelude.{ℕ};
ghost use Rattle.std.specs.Float.{binary32, binary64};
ghost use Rattle.std.proofs.Common.{rules};
ghost use Rattle.anglelaws.specs.Numbers as Numbers;
ghost use Rattle.anglelaws.specs.Words.{half_word, one_word, infinity_word};
ghost use Rattle.angle.specs.Numerals.{Small};

use width::Width;

/// A width with its small numbers, and the top words of some.
pub trait Numerals: Width {
    const ZERO: Self;

    const HALF: Self;

    const ONE: Self;

    const THREE_HALVES: Self;

    const TWO: Self;

    const THREE: Self;

    const FOUR: Self;

    const HALF_WORD: u32;

    const ONE_WORD: u32;

    const INFINITY_WORD: u32;

    ghost ZERO: { Self };

    ghost HALF: { Self };

    ghost ONE: { Self };

    ghost THREE_HALVES: { Self };

    ghost TWO: { Self };

    ghost THREE: { Self };

    ghost FOUR: { Self };

    ghost HALF_WORD: { ℕ };

    ghost ONE_WORD: { ℕ };

    ghost INFINITY_WORD: { ℕ };

    ghost small: { Small Self.Width.fmt (Self.Width.val ZERO) (Self.Width.val HALF) (Self.Width.val ONE)
        (Self.Width.val THREE_HALVES) (Self.Width.val TWO) (Self.Width.val THREE) (Self.Width.val FOUR)
        HALF_WORD ONE_WORD INFINITY_WORD };
}

impl Numerals for f64 {
    const ZERO: f64 = 0.;

    const HALF: f64 = 0.5;

    const ONE: f64 = 1.;

    const THREE_HALVES: f64 = 1.5;

    const TWO: f64 = 2.;

    const THREE: f64 = 3.;

    const FOUR: f64 = 4.;

    const HALF_WORD: u32 = 0x3fe0_0000;

    const ONE_WORD: u32 = 0x3ff0_0000;

    const INFINITY_WORD: u32 = 0x7ff0_0000;

    ghost ZERO = { Numbers.zero binary64 };

    ghost HALF = { Numbers.half binary64 };

    ghost ONE = { Numbers.one binary64 };

    ghost THREE_HALVES = { Numbers.three_halves binary64 };

    ghost TWO = { Numbers.two binary64 };

    ghost THREE = { Numbers.three binary64 };

    ghost FOUR = { Numbers.four binary64 };

    ghost HALF_WORD = { half_word binary64 };

    ghost ONE_WORD = { one_word binary64 };

    ghost INFINITY_WORD = { infinity_word binary64 };

    ghost small = { Prim.search rules };
}

impl Numerals for f32 {
    const ZERO: f32 = 0.;

    const HALF: f32 = 0.5;

    const ONE: f32 = 1.;

    const THREE_HALVES: f32 = 1.5;

    const TWO: f32 = 2.;

    const THREE: f32 = 3.;

    const FOUR: f32 = 4.;

    const HALF_WORD: u32 = 0x3f00_0000;

    const ONE_WORD: u32 = 0x3f80_0000;

    const INFINITY_WORD: u32 = 0x7f80_0000;

    ghost ZERO = { Numbers.zero binary32 };

    ghost HALF = { Numbers.half binary32 };

    ghost ONE = { Numbers.one binary32 };

    ghost THREE_HALVES = { Numbers.three_halves binary32 };

    ghost TWO = { Numbers.two binary32 };

    ghost THREE = { Numbers.three binary32 };

    ghost FOUR = { Numbers.four binary32 };

    ghost HALF_WORD = { half_word binary32 };

    ghost ONE_WORD = { one_word binary32 };

    ghost INFINITY_WORD = { infinity_word binary32 };

    ghost small = { Prim.search rules };
}
