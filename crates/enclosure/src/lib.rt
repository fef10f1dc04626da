// Enclosures: trial boxes, the runs that look for one, and the ranges that are held.
#![tactic(auto)]

mod boxes;
mod enclosure;
mod fault;
mod sentence;
mod step;
mod tenths;
mod trial;

pub use enclosure::Enclosure;
pub use fault::{End, Fault};
