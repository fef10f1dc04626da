// The kinds of call, each with its name and how many numbers it takes.
ghost use Rattle.std.specs.Prelude.{◌≡◌, Some};
ghost use Rattle.script.specs.Kinds.{IsNamed, name_of, takes};

use std::fmt;
use std::str::FromStr;

#[derive(Clone, Copy, PartialEq, Eq, Debug)]
pub enum Kind {
    Bring,
    Span,
    SpanAdd,
    SpanSub,
    SpanMul,
    SpanBack,
    Audit,
}

// No kind has the word for its name.
#[derive(Clone, Copy, PartialEq, Eq, Debug)]
pub struct NoKind;

impl FromStr for Kind {
    type Err = NoKind;

    ghost from_str_gives = { IsNamed };

    fn from_str(word: &str) -> Result<Kind, NoKind> {
        match word {
            "bring" => Ok(Kind::Bring),
            "span" => Ok(Kind::Span),
            "span-add" => Ok(Kind::SpanAdd),
            "span-sub" => Ok(Kind::SpanSub),
            "span-mul" => Ok(Kind::SpanMul),
            "span-back" => Ok(Kind::SpanBack),
            "audit" => Ok(Kind::Audit),
            _ => Err(NoKind),
        }
    }
}

impl fmt::Display for Kind {
    ghost output = { λ k. Some (name_of k) };

    fn fmt<W: fmt::Write>(&self, f: &mut fmt::Formatter<W>) -> fmt::Result {
        f.write_str(self.name())
    }
}

impl Kind {
    pub fn name(self) -> &'static str
        ensures { result.now ≡ name_of self }
    {
        match self {
            Kind::Bring => "bring",
            Kind::Span => "span",
            Kind::SpanAdd => "span-add",
            Kind::SpanSub => "span-sub",
            Kind::SpanMul => "span-mul",
            Kind::SpanBack => "span-back",
            Kind::Audit => "audit",
        }
    }

    // How many numbers the call takes.
    pub fn count(self) -> usize
        ensures { result ≡ takes self }
    {
        match self {
            Kind::Bring => 1,
            Kind::Span | Kind::SpanBack => 2,
            Kind::Audit => 3,
            Kind::SpanAdd | Kind::SpanSub | Kind::SpanMul => 4,
        }
    }
}
