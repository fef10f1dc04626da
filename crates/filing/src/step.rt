// What a run of calls asks, step by step, and what comes of it.
use law::{Ask, Reply};
use sheet::Rechecked;

#[derive(Clone, Copy)]
pub enum Step<'c> {
    // a call, or a row's range
    Asking(Ask<'c>),
    // frames the bytes for the docket's own scale, or else for the other one, and rechecks the sheet
    Check { bytes: &'c [u8], own: bool },
    // writes the sheet into a buffer of so many bytes, each 170 before
    Write { room: usize },
}

#[derive(Drop)]
pub enum Outcome {
    Replied(Reply),
    Checked(Result<Rechecked, sheet::Fault>),
    // the whole buffer
    Wrote(Result<Vec<u8>, sheet::Fault>),
}
