// Why a call was turned down, in one sentence.
ghost use Rattle.std.specs.Prelude.{Some};
ghost use Rattle.prepare.specs.Sentences.{sentence};

use crate::fault::Fault;
use std::error::Error;
use std::fmt;

impl fmt::Display for Fault {
    ghost output = { λ fault. Some (sentence fault) };

    fn fmt<W: fmt::Write>(&self, f: &mut fmt::Formatter<W>) -> fmt::Result {
        match self {
            Fault::OtherScale { units } => write!(
                f,
                "the figures count {units} units to the whole, the scale another number"
            ),
            Fault::Count { table, guesses } => write!(
                f,
                "the inverse has {table} numbers with {guesses} guesses; n times n with n are needed"
            ),
            Fault::TableTooLarge { row, column } => write!(
                f,
                "the inverse's number at row {row}, column {column} is not within 50 wholes"
            ),
            Fault::GuessTooLarge { row } => {
                write!(f, "the guess of row {row} is not within 100 wholes")
            }
            Fault::ResidualTooLarge { row } => {
                write!(f, "the residual of row {row} is not within 49 wholes")
            }
            Fault::IterationTooLarge { row, column } => write!(
                f,
                "the iteration at row {row}, column {column} is not within one whole"
            ),
        }
    }
}

impl Error for Fault {}
