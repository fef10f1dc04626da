// From a system and a proposal to its residual and iteration matrix.
#![tactic(auto)]

mod fault;
mod iteration;
mod prepared;
mod proposal;
mod residual;
mod sentence;
mod sums;

pub use fault::Fault;
pub use prepared::Prepared;
