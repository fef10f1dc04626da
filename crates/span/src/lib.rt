// Scales and spans: the exact arithmetic that every printed figure stands on.
#![tactic(auto)]

mod fault;
mod measure;
mod names;
mod scale;
mod span;
mod sum;

pub use fault::{Fault, Layer, Operation, Spot};
pub use measure::{Measure, NoMeasure};
pub use scale::{Binary, Millionths, Scale};
pub use span::Span;
pub use sum::sum_within;
