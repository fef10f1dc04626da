// The kinds of call about a game, each with its name.
ghost use Rattle.std.specs.Prelude.{◌≡◌, Some};
ghost use Rattle.asking.specs.Kinds.{IsNamed, name_of};

use std::fmt;
use std::str::FromStr;

#[derive(Clone, Copy, PartialEq, Eq, Debug)]
pub enum Kind {
    Open,
    PostMatrix,
    PostPayout,
    Range,
    Propose,
    Try,
    Run,
    Narrow,
    Row,
    Table,
}

// No kind has the word for its name.
#[derive(Clone, Copy, PartialEq, Eq, Debug)]
pub struct NoKind;

impl FromStr for Kind {
    type Err = NoKind;

    ghost from_str_gives = { IsNamed };

    fn from_str(word: &str) -> Result<Kind, NoKind> {
        match word {
            "open" => Ok(Kind::Open),
            "post-matrix" => Ok(Kind::PostMatrix),
            "post-payout" => Ok(Kind::PostPayout),
            "range" => Ok(Kind::Range),
            "propose" => Ok(Kind::Propose),
            "try" => Ok(Kind::Try),
            "run" => Ok(Kind::Run),
            "narrow" => Ok(Kind::Narrow),
            "row" => Ok(Kind::Row),
            "table" => Ok(Kind::Table),
            _ => Err(NoKind),
        }
    }
}

impl fmt::Display for Kind {
    ghost output = { λ k. Some (name_of k) };

    fn fmt<W: fmt::Write>(&self, f: &mut fmt::Formatter<W>) -> fmt::Result {
        f.write_str(self.name())
    }
}

impl Kind {
    pub fn name(self) -> &'static str
        ensures { result.now ≡ name_of self }
    {
        match self {
            Kind::Open => "open",
            Kind::PostMatrix => "post-matrix",
            Kind::PostPayout => "post-payout",
            Kind::Range => "range",
            Kind::Propose => "propose",
            Kind::Try => "try",
            Kind::Run => "run",
            Kind::Narrow => "narrow",
            Kind::Row => "row",
            Kind::Table => "table",
        }
    }
}
