// What is asked of a docket, what it answers, and what the calls as they are counted say.
#![tactic(auto)]

mod answer;
mod ask;
mod call;
mod fault;
mod sentence;

pub use answer::Answer;
pub use ask::{Ask, Reply};
pub use call::Call;
pub use fault::Fault;
