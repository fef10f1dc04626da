// Replies for people.
ghost use Rattle.std.specs.Prelude.{◌≡◌, IfOk, string_bytes};
ghost use Rattle.telling.specs.Replies.{refusal_text, told_answer, told_row, told_text};

use law::{Answer, Fault, Reply};
use span::Span;
use std::alloc::{AllocError, Global};
use wording::told_range;

pub fn told(heap: Global, reply: &Reply) -> Result<String, AllocError>
    ensures { IfOk result (λ s. string_bytes s ≡ told_text reply.now) }
{
    match reply {
        Reply::Made(Ok(answer)) => told_answer(heap, answer),
        Reply::Made(Err(fault)) => refusal(heap, fault),
        Reply::Told(row) => told_row(heap, row),
    }
}

fn told_answer(heap: Global, answer: &Answer) -> Result<String, AllocError>
    ensures { IfOk result (λ s. string_bytes s ≡ told_answer answer.now) }
{
    match answer {
        Answer::Done => String::from_str(heap, "done"),
        Answer::Trial(trial) => format!(in heap; "accepted at trial {trial}"),
    }
}

fn told_row(heap: Global, row: &Result<Span, Fault>) -> Result<String, AllocError>
    ensures { IfOk result (λ s. string_bytes s ≡ told_row row.now) }
{
    match row {
        Ok(range) => told_range(heap, range.low(), range.high()),
        Err(fault) => refusal(heap, fault),
    }
}

fn refusal(heap: Global, fault: &Fault) -> Result<String, AllocError>
    ensures { IfOk result (λ s. string_bytes s ≡ refusal_text fault.now) }
{
    let number = fault.number();
    let layer = fault.layer();
    format!(in heap; "turned down, {number} ({layer}): {fault}")
}
