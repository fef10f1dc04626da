// Why a call was turned down, in one sentence.
ghost use Rattle.std.specs.Prelude.{Some};
ghost use Rattle.source.specs.Sentences.{sentence};

use crate::fault::Fault;
use std::error::Error;
use std::fmt;

impl fmt::Display for Fault {
    ghost output = { λ fault. Some (sentence fault) };

    fn fmt<W: fmt::Write>(&self, f: &mut fmt::Formatter<W>) -> fmt::Result {
        let spot = self.place();
        match self {
            Fault::OutOfRange(_) => write!(f, "the source has no place {spot}"),
            Fault::Full(_) => write!(f, "the source has no room left for {spot}"),
            Fault::SumTooLarge(_) => write!(
                f,
                "the coefficient at {spot} would pass 1,073,741,824 in size"
            ),
        }
    }
}

impl Error for Fault {}
