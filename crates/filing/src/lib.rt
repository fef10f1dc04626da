// A filing: a run of calls on a new docket, with the law that holds over every such run.
#![tactic(auto)]

mod running;
mod step;

pub use running::replay;
pub use step::{Outcome, Step};
