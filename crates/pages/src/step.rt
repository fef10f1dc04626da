// What one line of an input asks for, owned, so that a whole input can be done at once.
ghost use Rattle.std.specs.Prelude.{◌≡◌, map, IfOk};
ghost use Rattle.asking.specs.Lines.{texts};
ghost use Rattle.pages.specs.Steps.{Asks, Computes, all_puts};
ghost use Rattle.pages.specs.Puts.{put};

use crate::posed::Posed;
use crate::program::Program;
use asking::Unread;
use script::Call;
use std::alloc::{AllocError, Global};
use std::str::from_utf8;

#[derive(Drop)]
pub enum Step {
    // empty, or a comment
    NoCall,
    // what is wrong with it
    Bad(String),
    Pure(Call),
    Put(Posed),
}

impl Step {
    pub(crate) fn of(heap: Global, program: Program, bytes: &[u8]) -> Result<Step, AllocError> {
        if bytes.trim_ascii_start().starts_with(b"#") {
            return Ok(Step::NoCall);
        }
        match from_utf8(bytes) {
            Ok(text) => Step::of_text(heap, program, text),
            Err(_) => bad(heap, "the line is not UTF-8 text"),
        }
    }

    fn of_text(heap: Global, program: Program, text: &str) -> Result<Step, AllocError> {
        let mut words = text.split_whitespace();
        let Some(name) = words.next() else {
            return Ok(Step::NoCall);
        };
        let numbers: Vec<&str> = words.collect(heap)?;
        match (program, name.parse::<script::Kind>()) {
            (Program::Games, Err(_)) => ask(heap, name, numbers.as_slice()),
            _ => pure(heap, name, numbers.as_slice()),
        }
    }
}

fn bad(heap: Global, what: &str) -> Result<Step, AllocError> {
    Ok(Step::Bad(String::from_str(heap, what)?))
}

fn pure<'a>(heap: Global, name: &'a str, numbers: &[&'a str]) -> Result<Step, AllocError>
    ensures { IfOk result (λ step. Computes name.now (texts numbers.now) step) }
{
    match script::read(name, numbers) {
        Ok(call) => Ok(Step::Pure(call)),
        Err(mistake) => Ok(Step::Bad(mistake.to_string(heap)?)),
    }
}

fn ask<'a>(heap: Global, name: &'a str, numbers: &[&'a str]) -> Result<Step, AllocError>
    ensures { IfOk result (λ step. Asks name.now (texts numbers.now) step) }
{
    match asking::read(heap, name, numbers) {
        Ok(asked) => Ok(Step::Put(Posed::Game(asked))),
        Err(Unread::Mistaken(mistake)) => Ok(Step::Bad(mistake.to_string(heap)?)),
        Err(Unread::OutOfMemory(error)) => Err(error),
    }
}

// The steps of an input, one for each line.
pub(crate) fn steps(
    heap: Global,
    program: Program,
    lines: &[Vec<u8>],
) -> Result<Vec<Step>, AllocError> {
    lines
        .iter()
        .map(|line| Step::of(heap, program, line.as_slice()))
        .try_collect(heap)
}

// All that the steps put to one run, in order.
pub(crate) fn puts<'a>(heap: Global, steps: &'a [Step]) -> Result<Vec<filing::Step<'a>>, AllocError>
    ensures { IfOk result (λ v. map put v.items ≡ all_puts steps.now) }
{
    let mut puts = Vec::new(heap);
    for step in steps {
        if let Step::Put(posed) = step {
            for number in 0..posed.count() {
                puts.push(posed.step(number))?;
            }
        }
    }
    Ok(puts)
}
