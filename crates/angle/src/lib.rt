// Angles: libm's inverse trigonometry. Each answer is the float that libm's branches and operations
// give. `generic` has the functions over the width; `acos` to `atanf`, under libm's file names, what a
// width brings to them, and libm's names.
#![tactic(auto)]

pub mod acos;
pub mod acosf;
pub mod asin;
pub mod asinf;
pub mod atan;
pub mod atan2;
pub mod atan2f;
pub mod atanf;
pub mod generic;
pub mod known;
pub mod narrowed;
pub mod numbers;
pub mod sign;
pub mod words;
