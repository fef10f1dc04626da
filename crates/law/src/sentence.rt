// Why a call was turned down, in one sentence.
ghost use Rattle.std.specs.Prelude.{Some};
ghost use Rattle.law.specs.Sentences.{sentence};

use crate::fault::Fault;
use std::error::Error;
use std::fmt;

impl fmt::Display for Fault {
    ghost output = { λ fault. Some (sentence fault) };

    fn fmt<W: fmt::Write>(&self, f: &mut fmt::Formatter<W>) -> fmt::Result {
        match self {
            Fault::Figures(fault) => write!(f, "{fault}"),
            Fault::Proposal(fault) => write!(f, "{fault}"),
            Fault::Trial(fault) => write!(f, "{fault}"),
            Fault::Source(fault) => write!(f, "{fault}"),
            Fault::NoProposal => write!(f, "no proposal stands"),
            Fault::NotHeld => write!(f, "no ranges are held"),
        }
    }
}

impl Error for Fault {}
