// The C functions, on patterns: each is a function of `exports` at one width, since C has no generic
// ones.
// `include/jamcurfew.h` declares them.
#![tactic(auto)]

ghost use Rattle.std.specs.Prelude.{◌≡◌, from_bits, to_bits};
ghost use Rattle.std.specs.Float.{binary32, binary64};
ghost use Rattle.width.specs.Shape.{shape_of};
ghost use Rattle.rootlaws.specs.Roots.{RootBits};
ghost use Rattle.anglelaws.specs.Arcs as Arcs;
ghost use Rattle.anglelaws.specs.Atan as Atan;
ghost use Rattle.anglelaws.specs.Atan2 as Atan2;

#[unsafe(no_mangle)]
pub extern "C" fn jamcurfew_asin(x: u64) -> u64
    ensures { result ≡ to_bits binary64 (Arcs.asin binary64 (from_bits binary64 x)) }
{
    exports::asin::<f64>(x)
}

#[unsafe(no_mangle)]
pub extern "C" fn jamcurfew_asinf(x: u32) -> u32
    ensures { result ≡ to_bits binary32 (Arcs.asin binary32 (from_bits binary32 x)) }
{
    exports::asin::<f32>(x)
}

#[unsafe(no_mangle)]
pub extern "C" fn jamcurfew_acos(x: u64) -> u64
    ensures { result ≡ to_bits binary64 (Arcs.acos binary64 (from_bits binary64 x)) }
{
    exports::acos::<f64>(x)
}

#[unsafe(no_mangle)]
pub extern "C" fn jamcurfew_acosf(x: u32) -> u32
    ensures { result ≡ to_bits binary32 (Arcs.acos binary32 (from_bits binary32 x)) }
{
    exports::acos::<f32>(x)
}

#[unsafe(no_mangle)]
pub extern "C" fn jamcurfew_atan(x: u64) -> u64
    ensures { result ≡ to_bits binary64 (Atan.atan binary64 (from_bits binary64 x)) }
{
    exports::atan::<f64>(x)
}

#[unsafe(no_mangle)]
pub extern "C" fn jamcurfew_atanf(x: u32) -> u32
    ensures { result ≡ to_bits binary32 (Atan.atan binary32 (from_bits binary32 x)) }
{
    exports::atan::<f32>(x)
}

#[unsafe(no_mangle)]
pub extern "C" fn jamcurfew_atan2(y: u64, x: u64) -> u64
    ensures { result ≡ to_bits binary64 (Atan2.atan2 binary64 (from_bits binary64 y) (from_bits binary64 x)) }
{
    exports::atan2::<f64>(y, x)
}

#[unsafe(no_mangle)]
pub extern "C" fn jamcurfew_atan2f(y: u32, x: u32) -> u32
    ensures { result ≡ to_bits binary32 (Atan2.atan2 binary32 (from_bits binary32 y) (from_bits binary32 x)) }
{
    exports::atan2::<f32>(y, x)
}

#[unsafe(no_mangle)]
pub extern "C" fn jamcurfew_sqrt(x: u64) -> u64
    ensures { RootBits (shape_of binary64) x result }
{
    exports::sqrt::<f64>(x)
}

#[unsafe(no_mangle)]
pub extern "C" fn jamcurfew_sqrtf(x: u32) -> u32
    ensures { RootBits (shape_of binary32) x result }
{
    exports::sqrt::<f32>(x)
}
