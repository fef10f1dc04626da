// Lines of calls about a game: what a line's words ask of a docket.
#![tactic(auto)]

mod asked;
mod figure;
mod fixed;
mod kind;
mod lists;
mod mistake;
mod reading;

pub use asked::Asked;
pub use figure::Form;
pub use kind::{Kind, NoKind};
pub use mistake::{Mistake, Unread};
pub use reading::read;
