// What is wrong with a line that is no call.
ghost use Rattle.std.specs.Prelude.{Some};

use crate::kind::Kind;
use std::error::Error;
use std::fmt;

#[derive(Clone, Copy, Debug)]
pub enum Mistake<'a> {
    UnknownCall { word: &'a str },
    WrongCount { kind: Kind, given: usize },
    NotANumber { word: &'a str },
}

impl fmt::Display for Mistake<'_> {
    ghost use Rattle.script.specs.Mistakes.{mistake_text};

    ghost output = { λ m. Some (mistake_text m) };

    fn fmt<W: fmt::Write>(&self, f: &mut fmt::Formatter<W>) -> fmt::Result {
        match self {
            Mistake::UnknownCall { word } => write!(
                f,
                "\"{word}\" is no call; expected bring, span, span-add, span-sub, span-mul, span-back or audit"
            ),
            Mistake::WrongCount { kind, given } => {
                let count = kind.count();
                let numbers = if count == 1 { "number" } else { "numbers" };
                let were = if *given == 1 { "was" } else { "were" };
                write!(f, "{kind} takes {count} {numbers}, {given} {were} given")
            }
            Mistake::NotANumber { word } => write!(
                f,
                "\"{word}\" is not a whole number from -9,223,372,036,854,775,808 to 9,223,372,036,854,775,807"
            ),
        }
    }
}

impl Error for Mistake<'_> {}
