// What is asked of a docket in a run of calls, and what it replies.
use crate::answer::Answer;
use crate::call::Call;
use crate::fault::Fault;
use span::Span;

#[derive(Clone, Copy, PartialEq, Eq, Debug)]
pub enum Ask<'c> {
    // a call, which may change it
    Make(Call<'c>),
    // the held range of a row, which changes nothing
    Row { row: usize },
}

#[derive(Clone, Copy, PartialEq, Eq, Debug)]
pub enum Reply {
    Made(Result<Answer, Fault>),
    Told(Result<Span, Fault>),
}
