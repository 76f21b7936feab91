// Square roots: the nearest root of every float, and the units that are asked for roots.
#![tactic(auto)]

pub mod agree;
pub mod env;
mod floats;
pub mod goldschmidt;
pub mod known;
pub mod longhand;
pub mod sqrt;
pub mod unit;
