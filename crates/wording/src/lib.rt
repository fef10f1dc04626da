// How answers and refusals are worded.
#![tactic(auto)]

mod grouping;
mod moved;
mod phrases;
mod rows;

pub use grouping::grouped;
pub use moved::Moved;
pub use phrases::{bare, sentence, told, told_range};
pub use rows::Rows;
