// What is wrong with a line that asks nothing.
ghost use Rattle.std.specs.Prelude.{◌≡◌, Some, alloc_error};
ghost use Rattle.asking.specs.declared.mistake.Unread.TheVariants.{Mistaken, OutOfMemory};
ghost use Rattle.asking.specs.Usages.{usage_text};

use crate::figure::Form;
use crate::kind::Kind;
use std::alloc::{AllocError, AllocFailed};
use std::error::Error;
use std::fmt;

#[derive(Clone, Copy, Debug)]
pub enum Mistake<'a> {
    UnknownCall { word: &'a str },
    WrongCount { kind: Kind, given: usize },
    // a proposal whose two lists no stroke parts
    NoStroke,
    NotANumber { form: Form, word: &'a str },
}

impl fmt::Display for Mistake<'_> {
    ghost use Rattle.asking.specs.Mistakes.{mistake_text};

    ghost output = { λ m. Some (mistake_text m) };

    fn fmt<W: fmt::Write>(&self, f: &mut fmt::Formatter<W>) -> fmt::Result {
        match self {
            Mistake::UnknownCall { word } => write!(
                f,
                "\"{word}\" is no call; expected open, post-matrix, post-payout, range, propose, try, run, narrow, row, table, bring, span, span-add, span-sub, span-mul, span-back or audit"
            ),
            Mistake::WrongCount { kind, given } => {
                let usage = usage(*kind);
                let were = if *given == 1 {
                    "number was"
                } else {
                    "numbers were"
                };
                write!(f, "expected {usage}; {given} {were} given")
            }
            Mistake::NoStroke => write!(
                f,
                "expected propose r.. / g..; no stroke parts the two lists"
            ),
            Mistake::NotANumber { form, word } => {
                write!(f, "\"{word}\" is not a whole number from {form}")
            }
        }
    }
}

impl Error for Mistake<'_> {}

// How a call is written; what a kind prints is its name alone.
fn usage(kind: Kind) -> &'static str
    ensures { result.now ≡ usage_text kind }
{
    match kind {
        Kind::Open => "open n k",
        Kind::PostMatrix => "post-matrix part row column amount",
        Kind::PostPayout => "post-payout part row amount",
        Kind::Range => "range part low high",
        Kind::Propose => "propose r.. / g..",
        Kind::Try => "try low high ..",
        Kind::Run => "run t",
        Kind::Narrow => "narrow alone",
        Kind::Row => "row i",
        Kind::Table => "table alone",
    }
}

// Why a line was not read.
#[derive(Clone, Copy, Debug)]
pub enum Unread<'a> {
    Mistaken(Mistake<'a>),
    OutOfMemory(AllocError),
}

impl<'a> From<Mistake<'a>> for Unread<'a> {
    ghost from_gives = { λ m u. u ≡ Mistaken m };

    fn from(mistake: Mistake<'a>) -> Unread<'a> {
        Unread::Mistaken(mistake)
    }
}

impl From<AllocError> for Unread<'_> {
    ghost from_gives = { λ e u. u ≡ OutOfMemory e };

    fn from(error: AllocError) -> Self {
        Unread::OutOfMemory(error)
    }
}

impl<T: Drop> From<AllocFailed<T>> for Unread<'_> {
    ghost from_gives = { λ _ u. u ≡ OutOfMemory alloc_error };

    fn from(failed: AllocFailed<T>) -> Self {
        Unread::OutOfMemory(AllocError::from(failed))
    }
}
