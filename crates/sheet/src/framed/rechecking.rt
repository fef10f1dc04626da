// Rechecking a framed sheet on a docket, which spends it.
ghost use Rattle.std.specs.Prelude.{◌≡◌, ℕ, ◌<◌, ◌≤◌, List, Ok};
ghost use Rattle.source.specs.Meaning.{Meaning};
ghost use Rattle.law.specs.Calls.{Given};
ghost use Rattle.law.specs.Law.{told_ends};
ghost use Rattle.docket.specs.Dockets.{After, Of};
ghost use Rattle.sheet.specs.Again.{WritesAgain};
ghost use Rattle.sheet.specs.Framing.{Framing, Passes, sheet_in};
ghost use Rattle.sheet.specs.Rechecks.{claim_questions, is_claimed, left_by};
ghost use Rattle.sheet.specs.Outcomes.{AfterOpening, Keeps, Rechecking};

use super::Framed;
use crate::fault::Fault;
use crate::rechecked::Rechecked;
use docket::Docket;
use source::Source;
use span::{Scale, Span};

impl Framed<'_> {
    // Makes the sheet's calls on the docket. Turned down, it leaves the docket newly opened with
    // the sheet's n and k.
    pub fn recheck<C: Source, T: Scale>(self, docket: &mut Docket<C, T>) -> Result<Rechecked, Fault>
        ensures rechecked { (M : Meaning) (h : List Given) → After C.Source T.Scale.unit M h docket.old → Of C.Source docket.new (Rechecking T.Scale.unit M h (sheet_in self.entry) result) }
        ensures again { (M : Meaning) (h : List Given) (u : ℕ) (bs : List ℕ) → After C.Source T.Scale.unit M h docket.old → Framing u bs (Ok self.entry) → WritesAgain T.Scale.unit (left_by T.Scale.unit M h (sheet_in self.entry)) bs result }
    {
        let n = usize::from(self.states);
        let k = usize::from(self.settings);
        // matched, and not passed on: after a `?` the proof does not find again how the opening went
        match docket.open(n, k) {
            Ok(_) => match self.proven(docket) {
                Ok(rechecked) => Ok(rechecked),
                Err(fault) => {
                    let _ = docket.open(n, k);
                    Err(fault)
                }
            },
            Err(fault) => Err(Fault::Docket {
                fault,
                byte: self.layout().length() - 4,
            }),
        }
    }

    // On the docket as it was opened.
    fn proven<C: Source, T: Scale>(&self, docket: &mut Docket<C, T>) -> Result<Rechecked, Fault>
        ensures { (M : Meaning) (h : List Given) → After C.Source T.Scale.unit M h docket.old → Of C.Source docket.new (AfterOpening T.Scale.unit M h (sheet_in self.now) result) }
    {
        if i64::from(self.units) != T::units() {
            return Err(Fault::OtherScale {
                byte: self.layout().length() - 8,
            });
        }
        self.remake(docket)?;
        self.claimed(docket)?;
        Ok(kept(docket, self.states))
    }

    // Are the claims the ends that are held?
    fn claimed<C: Source, T: Scale>(&self, docket: &Docket<C, T>) -> Result<(), Fault>
        ensures { (M : Meaning) (h : List Given) → After C.Source T.Scale.unit M h docket.now → Passes (claim_questions (sheet_in self.now) T.Scale.unit h) result }
    {
        let layout = self.layout();
        for u in 0..2 * layout.states {
            let at = layout.claims() + u;
            if !is_claimed(docket.row(u / 2), u % 2, self.number(at)) {
                return Err(Fault::OtherClaim {
                    row: u / 2,
                    byte: 4 * at,
                });
            }
        }
        Ok(())
    }
}

// Is the number the low end (0) or the high end of what was told?
fn is_claimed(told: Result<Span, law::Fault>, end: usize, number: i32) -> bool
    requires { end < 2 }
    ensures { result ≡ is_claimed (told_ends told) end number }
{
    match told {
        Ok(range) => range.ends()[end] == i64::from(number),
        Err(_) => false,
    }
}

// The held ranges, row by row; 0..0 past the last.
fn kept<C: Source, T: Scale>(docket: &Docket<C, T>, states: u8) -> Rechecked
    requires { states ≤ 12 }
    ensures { (M : Meaning) (h : List Given) → After C.Source T.Scale.unit M h docket.now → Keeps T.Scale.unit h states result }
{
    let mut ranges = [Span::default(); 12];
    for (row, range) in ranges.iter_mut().enumerate() {
        *range = docket.row(row).unwrap_or_default();
    }
    Rechecked { states, ranges }
}
