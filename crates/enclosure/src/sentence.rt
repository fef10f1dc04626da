// Why a call was turned down, in one sentence.
ghost use Rattle.std.specs.Prelude.{Some};
ghost use Rattle.enclosure.specs.Sentences.{end_name, sentence};

use crate::fault::{End, Fault};
use std::error::Error;
use std::fmt;

impl fmt::Display for End {
    ghost output = { λ end. Some (end_name end) };

    fn fmt<W: fmt::Write>(&self, f: &mut fmt::Formatter<W>) -> fmt::Result {
        f.write_str(match self {
            End::Low => "low",
            End::High => "high",
        })
    }
}

impl fmt::Display for Fault {
    ghost output = { λ fault. Some (sentence fault) };

    fn fmt<W: fmt::Write>(&self, f: &mut fmt::Formatter<W>) -> fmt::Result {
        match self {
            Fault::OtherScale { units } => write!(
                f,
                "the figures count {units} units to the whole, the scale another number"
            ),
            Fault::Count { given } => write!(
                f,
                "the box has {given} numbers; two for each state are needed"
            ),
            Fault::BoxReversed { row } => write!(
                f,
                "row {row} of the box has its low end above its high end"
            ),
            Fault::BoxTooLarge { row } => write!(
                f,
                "row {row} of the box has an end that is not within 100 wholes"
            ),
            Fault::NotAccepted { row, end } => {
                write!(f, "no trial was accepted; worst end row {row}, {end}")
            }
            Fault::Trials { asked } => write!(f, "a run has 1 to 10 trials, not {asked}"),
            Fault::Narrowed => write!(f, "16 narrowings are done already"),
            Fault::NoRow { row } => write!(f, "the game has no row {row}"),
        }
    }
}

impl Error for Fault {}
