// From f64 to f32, rounded to nearest.
ghost use Rattle.std.specs.Prelude.{◌≡◌, ◌%◌, ◌^◌, ◌<◌, ◌≤◌, from_bits};
ghost use Rattle.std.specs.Float.{round_to_format, binary32, binary64};

use std::num::nearest_f64_to_f32_with_nan;
use std::ops::Range;
use width::Width;

/// The patterns of the sizes that stay normal and finite, from 2^-126 to below 2^127.
const STAY_NORMAL: Range<u64> = 0x3810_0000_0000_0000..0x47e0_0000_0000_0000;

// Of a wide pattern, for sizes from 2^-126 to below 2^127: rounded, they stay normal and finite.
#[tactic(auto, using(anglelaws::proofs::Narrowed::nearest_narrow, anglelaws::proofs::Narrowed::narrow_number))]
fn narrowed_bits(bits: u64) -> f32
    requires { (0x3810_0000_0000_0000 ≤ bits % 2 ^ 63) × (bits % 2 ^ 63 < 0x47e0_0000_0000_0000) }
    ensures { result ≡ round_to_format binary32 (from_bits binary64 bits) }
{
    let size = bits % 0x8000_0000_0000_0000;
    // To 23 of the 52 stored bits, ties to even. A carry goes on into the exponent's field.
    let rounded = (size + 0x0fff_ffff + (size >> 29) % 2) >> 29;
    // The bias is 1023 wide and 127 narrow.
    let narrow = rounded - 896 * 0x80_0000;
    f32::from_bits(((bits >> 63) * 0x8000_0000 + narrow) as u32)
}

/// The nearest narrow float, ties to even. No `From`, since it rounds.
pub fn narrowed(x: f64) -> f32
    ensures { result ≡ round_to_format binary32 x }
{
    match x.pattern() {
        Some(bits) if STAY_NORMAL.contains(&(bits % 0x8000_0000_0000_0000)) => narrowed_bits(bits),
        _ => nearest_f64_to_f32_with_nan(x),
    }
}
