// The two float widths: the layout of their patterns, and their arithmetic.
#![tactic(auto)]

pub mod float_traits;
pub mod int_traits;
pub mod narrow;
pub mod wide;

pub use float_traits::{Layout, Width};
pub use int_traits::{HInt, Int};
