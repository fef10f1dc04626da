// The scales by name, for whoever chooses one.
ghost use Rattle.std.specs.Prelude.{Some};
ghost use Rattle.span.specs.Measures.{IsNamed, name_of};

use std::fmt;
use std::str::FromStr;

#[derive(Clone, Copy, PartialEq, Eq, Debug)]
pub enum Measure {
    Millionths,
    Binary,
}

// No scale has the word for its name.
#[derive(Clone, Copy, PartialEq, Eq, Debug)]
pub struct NoMeasure;

impl FromStr for Measure {
    type Err = NoMeasure;

    ghost from_str_gives = { IsNamed };

    fn from_str(word: &str) -> Result<Measure, NoMeasure> {
        match word {
            "millionths" => Ok(Measure::Millionths),
            "binary" => Ok(Measure::Binary),
            _ => Err(NoMeasure),
        }
    }
}

impl fmt::Display for Measure {
    ghost output = { λ m. Some (name_of m) };

    fn fmt<W: fmt::Write>(&self, f: &mut fmt::Formatter<W>) -> fmt::Result {
        f.write_str(match self {
            Measure::Millionths => "millionths",
            Measure::Binary => "binary",
        })
    }
}
