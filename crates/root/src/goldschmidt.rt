// Goldschmidt's iteration: the reciprocal root and the root of a word, together.
ghost use Rattle.std.specs.Prelude.{◌≡◌, ◌-◌, ◌*◌, ◌/◌, ◌%◌, ◌^◌, ◌<◌, if◌then◌else◌};
ghost use Rattle.rootlaws.specs.Gold.{doubles, gold};

use width::HInt;

// The root doubled, in each turn but the first of a set and the last of the final set.
fn doubled<I: HInt>(s_u2: I, i: u32, count: u32, final_set: bool) -> I
    requires { i < count }
    ensures { I.Int.nat result ≡ (if doubles count final_set i then I.Int.nat s_u2 * 2 % 2 ^ I.Int.BITS else I.Int.nat s_u2) }
{
    if i > 0 && (!final_set || i + 1 < count) {
        s_u2.shl(1)
    } else {
        s_u2
    }
}

/// Performs `count` iterations on the reciprocal root `r_u0` and the word `s_u2`, and hands back
/// both. The root has one bit less after the final set. There what is handed back as the
/// reciprocal is not one. The flag is the source's.
pub fn goldschmidt<I: HInt>(mut r_u0: I, mut s_u2: I, count: u32, final_set: bool) -> (I, I)
    ensures rec { I.Int.nat result.0 ≡ (gold (2 ^ (I.Int.BITS - 2)) I.HInt.mulh count final_set (I.Int.nat r_u0) (I.Int.nat s_u2)).rec }
    ensures root { I.Int.nat result.1 ≡ (gold (2 ^ (I.Int.BITS - 2)) I.HInt.mulh count final_set (I.Int.nat r_u0) (I.Int.nat s_u2)).root }
{
    let three_u2 = I::from_u32(0b11).shl(I::BITS - 2);
    let mut u_u0 = r_u0;
    for i in 0..count {
        // First turn: s = m * r, since u = r. Later ones: s = s * u / 2.
        s_u2 = doubled(s_u2.wmulh(u_u0), i, count, final_set);
        // u = 3 - s * r
        let d_u2 = s_u2.wmulh(r_u0);
        u_u0 = three_u2.wrapping_sub(d_u2);
        // r = r * u / 2
        r_u0 = r_u0.wmulh(u_u0).shl(1);
    }
    (r_u0, s_u2)
}
