// The calls that may change a docket.
use source::Place;

#[derive(Clone, Copy, PartialEq, Eq, Debug)]
pub enum Call<'c> {
    // n states and k settings, nothing posted
    Open {
        states: usize,
        settings: usize,
    },
    // adds an amount at a place
    Post {
        place: Place,
        amount: i32,
    },
    // sets the range of one setting
    Range {
        part: usize,
        low: i32,
        high: i32,
    },
    // an approximate inverse by rows, and guessed worths
    Propose {
        table: &'c [i32],
        guesses: &'c [i32],
    },
    // a trial box, row by row, low before high
    Try {
        numbers: &'c [i32],
    },
    // one box after another, at most so many
    Run {
        trials: u8,
    },
    // replaces what is held by its step
    Narrow,
}
