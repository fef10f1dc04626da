// How a docket's replies are worded.
#![tactic(auto)]

mod lines;
mod replies;

pub use lines::{bare, bare_table};
pub use replies::told;
