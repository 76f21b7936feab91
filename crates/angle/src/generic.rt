// The functions over the width.
pub mod acos;
pub mod asin;
pub mod atan;
pub mod atan2;
