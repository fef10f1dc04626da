// How answers and refusals are worded: bare for other programs, in full for people.
ghost use Rattle.std.specs.Prelude.{◌≡◌, IfOk, string_bytes};
ghost use Rattle.wording.specs.Wording.{answer_text, bare_answer, bare_text, range_text, row_text, sentence_text, told_text};

use crate::grouping::grouped;
use crate::moved::Moved;
use audit::Finding;
use script::Answer;
use span::Fault;
use std::alloc::{AllocError, Global};

// What a call came to, in one line for other programs.
pub fn bare(heap: Global, found: &Result<Answer, Fault>) -> Result<String, AllocError>
    ensures { IfOk result (λ s. string_bytes s ≡ bare_text found.now) }
{
    match found {
        Ok(answer) => bare_line(heap, answer),
        Err(fault) => {
            let number = fault.number();
            let layer = fault.layer();
            format!(in heap; "no {number} {layer} 0 0 0")
        }
    }
}

fn bare_line(heap: Global, answer: &Answer) -> Result<String, AllocError>
    ensures { IfOk result (λ s. string_bytes s ≡ bare_answer answer.now) }
{
    match answer {
        Answer::Figures { lower, upper } => format!(in heap; "ok {lower} {upper}"),
        Answer::Range(span) => {
            let low = span.low();
            let high = span.high();
            format!(in heap; "ok {low} {high}")
        }
        Answer::Row(finding) => {
            let due = finding.due();
            let low = due.low();
            let high = due.high();
            let (dropped_low, dropped_high) = finding.dropped();
            let moved = Moved::of(finding).word();
            format!(in heap; "ok {low} {high} {dropped_low} {dropped_high} {moved}")
        }
    }
}

// What a call came to, for people.
pub fn told(heap: Global, found: &Result<Answer, Fault>) -> Result<String, AllocError>
    ensures { IfOk result (λ s. string_bytes s ≡ told_text found.now) }
{
    match found {
        Ok(answer) => told_answer(heap, answer),
        Err(fault) => {
            let number = fault.number();
            let layer = fault.layer();
            let why = sentence(heap, fault)?;
            format!(in heap; "turned down, {number} ({layer}): {why}")
        }
    }
}

fn told_answer(heap: Global, answer: &Answer) -> Result<String, AllocError>
    ensures { IfOk result (λ s. string_bytes s ≡ answer_text answer.now) }
{
    match answer {
        Answer::Figures { lower, upper } => {
            let lower = grouped(heap, *lower)?;
            let upper = grouped(heap, *upper)?;
            format!(in heap; "{lower} and {upper}")
        }
        Answer::Range(span) => told_range(heap, span.low(), span.high()),
        Answer::Row(finding) => told_row(heap, finding),
    }
}

// A range, from its low end to its high end.
pub fn told_range(heap: Global, low: i64, high: i64) -> Result<String, AllocError>
    ensures { IfOk result (λ s. string_bytes s ≡ range_text low high) }
{
    let low = grouped(heap, low)?;
    let high = grouped(heap, high)?;
    format!(in heap; "{low}..{high}")
}

fn told_row(heap: Global, finding: &Finding) -> Result<String, AllocError>
    ensures { IfOk result (λ s. string_bytes s ≡ row_text finding.now) }
{
    let due = finding.due();
    let due = told_range(heap, due.low(), due.high())?;
    let moved = Moved::of(finding);
    let ends = moved.told();
    if let Moved::Neither = moved {
        return format!(in heap; "must read {due}; {ends}");
    }
    let (low, high) = finding.dropped();
    let dropped = told_range(heap, low, high)?;
    format!(in heap; "must read {due}; dropping remainders printed {dropped}; {ends}")
}

// Why a call was turned down.
pub fn sentence(heap: Global, fault: &Fault) -> Result<String, AllocError>
    ensures { IfOk result (λ s. string_bytes s ≡ sentence_text fault.now) }
{
    match fault {
        Fault::LowAboveHigh { low, high } => {
            let low = grouped(heap, *low)?;
            let high = grouped(heap, *high)?;
            format!(in heap; "the low end, {low}, is above the high end, {high}")
        }
        Fault::TooLarge(operation) => {
            format!(in heap; "the {operation} does not fit signed 64 bits")
        }
    }
}
