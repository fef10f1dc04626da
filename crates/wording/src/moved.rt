// Which ends of a row had moved inward. It has two wordings, a bare word and one for people, so
// neither is its Display.
ghost use Rattle.std.specs.Prelude.{◌≡◌};
ghost use Rattle.wording.specs.Moves.{moved, word_of, told_of};

use audit::Finding;

#[derive(Clone, Copy, PartialEq, Eq, Debug)]
pub enum Moved {
    Neither,
    Low,
    High,
    Both,
}

impl Moved {
    pub fn of(finding: &Finding) -> Moved
        ensures { result ≡ moved finding.now }
    {
        match (finding.low_moved(), finding.high_moved()) {
            (false, false) => Moved::Neither,
            (true, false) => Moved::Low,
            (false, true) => Moved::High,
            (true, true) => Moved::Both,
        }
    }

    // The one word of the bare answer.
    pub fn word(self) -> &'static str
        ensures { result.now ≡ word_of self }
    {
        match self {
            Moved::Neither => "none",
            Moved::Low => "low",
            Moved::High => "high",
            Moved::Both => "both",
        }
    }

    pub fn told(self) -> &'static str
        ensures { result.now ≡ told_of self }
    {
        match self {
            Moved::Neither => "no end had moved",
            Moved::Low => "the low end had moved inward",
            Moved::High => "the high end had moved inward",
            Moved::Both => "both ends had moved inward",
        }
    }
}
