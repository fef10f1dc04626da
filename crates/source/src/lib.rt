// Sources of coefficients: what every source means, and the two that there are.
#![tactic(auto)]

mod entry;
mod fault;
mod grid;
mod list;
mod place;
mod sentence;
mod source;
mod tally;

pub use entry::{Entry, MatrixPlace, PayoutPlace};
pub use fault::Fault;
pub use grid::Grid;
pub use list::List;
pub use place::Place;
pub use source::Source;
