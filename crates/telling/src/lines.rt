// Replies in bare lines, for other programs.
ghost use Rattle.std.specs.Prelude.{◌≡◌, ◌++◌, IfOk, string_bytes, codes};
ghost use Rattle.telling.specs.Replies.{bare_answer, bare_refusal, bare_row, bare_text, ends_text, range_of, rows_text, table_text};

use law::{Answer, Fault, Reply};
use span::{Span, Spot};
use std::alloc::{AllocError, Global};

pub fn bare(heap: Global, reply: &Reply) -> Result<String, AllocError>
    ensures { IfOk result (λ s. string_bytes s ≡ bare_text reply.now) }
{
    match reply {
        Reply::Made(Ok(answer)) => bare_answer(heap, answer),
        Reply::Made(Err(fault)) => refusal(heap, fault),
        Reply::Told(row) => bare_row(heap, row),
    }
}

fn bare_answer(heap: Global, answer: &Answer) -> Result<String, AllocError>
    ensures { IfOk result (λ s. string_bytes s ≡ bare_answer answer.now) }
{
    match answer {
        Answer::Done => String::from_str(heap, "ok"),
        Answer::Trial(trial) => format!(in heap; "ok {trial}"),
    }
}

fn bare_row(heap: Global, row: &Result<Span, Fault>) -> Result<String, AllocError>
    ensures { IfOk result (λ s. string_bytes s ≡ bare_row row.now) }
{
    match row {
        Ok(range) => {
            let low = range.low();
            let high = range.high();
            format!(in heap; "ok {low} {high}")
        }
        Err(fault) => refusal(heap, fault),
    }
}

// The rows of a table in one line, up to the first that is no range; where the very first is none,
// its own line.
pub fn bare_table(heap: Global, rows: &[Reply]) -> Result<String, AllocError>
    ensures { IfOk result (λ s. string_bytes s ≡ table_text rows.now) }
{
    match rows {
        [first, ..] if range_of(first).is_none() => bare(heap, first),
        _ => rows_line(heap, rows),
    }
}

fn rows_line(heap: Global, rows: &[Reply]) -> Result<String, AllocError>
    ensures { IfOk result (λ s. string_bytes s ≡ codes "ok" ++ rows_text rows.now) }
{
    let mut line = String::from_str(heap, "ok")?;
    for row in rows {
        let Some(range) = range_of(row) else {
            return Ok(line);
        };
        let low = range.low();
        let high = range.high();
        write!(line, " {low} {high}")?;
    }
    Ok(line)
}

fn range_of(reply: &Reply) -> Option<Span>
    ensures { result ≡ range_of reply.now }
{
    match reply {
        Reply::Made(_) => None,
        Reply::Told(row) => row.ok(),
    }
}

fn refusal(heap: Global, fault: &Fault) -> Result<String, AllocError>
    ensures { IfOk result (λ s. string_bytes s ≡ bare_refusal fault.now) }
{
    let number = fault.number();
    let layer = fault.layer();
    let Spot { part, row, column } = fault.place();
    format!(in heap; "no {number} {layer} {part} {row} {column}")
}
