// Lines of calls: what a line asks for, and what it answers.
#![tactic(auto)]

mod answer;
mod call;
mod kind;
mod mistake;
mod reading;

pub use answer::Answer;
pub use call::Call;
pub use kind::{Kind, NoKind};
pub use mistake::Mistake;
pub use reading::{number, read};
