// What an accepted call answers. An Option of a trial's number would hold the same, but would not
// say that the call was done.

#[derive(Clone, Copy, PartialEq, Eq, Debug)]
pub enum Answer {
    // it was done
    Done,
    // a run: the number of the accepted trial
    Trial(u8),
}
