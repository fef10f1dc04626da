// Sheets: a filing as bytes, written from a docket and rechecked on another.
#![tactic(auto)]

mod bytes;
mod fault;
mod framed;
mod layout;
mod rechecked;
mod writing;

pub use fault::Fault;
pub use framed::Framed;
pub use rechecked::Rechecked;
pub use writing::write;
