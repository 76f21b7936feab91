// A field by its sides, and the diagonal that squares it up.
#![tactic(auto)]

pub mod diagonal;
pub mod line;
pub mod refusal;
pub mod sides;
