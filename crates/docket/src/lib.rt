// The docket: one game's calls, over any source of coefficients and any scale.
#![tactic(auto)]

mod desk;
mod docket;
mod filling;

pub use docket::Docket;
