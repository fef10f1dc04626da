// What a docket tells of what it keeps, for whoever writes it down.
ghost use Rattle.std.specs.Prelude.{◌≡◌};
ghost use Rattle.span.specs.Spans.{ends};
ghost use Rattle.system.specs.Figures.{spans};
ghost use Rattle.source.specs.Meaning.{told};
ghost use Rattle.docket.specs.Reflects.{enclosure_of};

use super::Docket;
use crate::desk::Stage;
use crate::filling::coefficient;
use enclosure::Enclosure;
use source::{Place, Source};
use span::{Scale, Span};

impl<C: Source, T: Scale> Docket<C, T> {
    // n.
    pub fn states(&self) -> usize
        ensures { result ≡ self.now.desk.figures.states }
    {
        self.desk.figures.states()
    }

    // k.
    pub fn settings(&self) -> usize
        ensures { result ≡ self.now.desk.figures.settings }
    {
        self.desk.figures.settings()
    }

    // What the source holds at a place; nothing counts as 0.
    pub fn coefficient(&self, place: Place) -> i32
        ensures { result ≡ told (C.Source.meaning self.now.source) place }
    {
        coefficient(&self.source, place)
    }

    // The range of one setting, 0..0 where there is none.
    pub fn range(&self, part: usize) -> Span
        ensures { ends result ≡ spans self.now.desk.figures.ranges part }
    {
        self.desk
            .figures
            .ranges()
            .get(part)
            .copied()
            .unwrap_or_default()
    }

    // What gives the held ranges, while there are any.
    pub fn held(&self) -> Option<Enclosure>
        ensures { result ≡ enclosure_of self.now.desk.stage }
    {
        match self.desk.stage {
            Stage::Holding(held) => Some(held),
            _ => None,
        }
    }
}
