// The page that the programs print: the calls of each input, answered. A page is printed by this one
// function, of which no contract could say what is seen of it; what stands on it is worked out by
// functions with contracts.
#![tactic(auto)]

mod accepted;
mod game;
mod options;
mod page;
mod posed;
mod program;
mod replied;
mod running;
mod step;
mod store;
mod tally;
mod teller;

pub use program::Program;
pub use running::run;
