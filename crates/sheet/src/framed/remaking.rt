// Rechecking: the calls that a sheet makes, one after another.
ghost use Rattle.std.specs.Prelude.{◌≡◌, ℕ, ◌+◌, ◌*◌, ◌<◌, ◌≤◌, List, [], ◌∷◌, ◌++◌, length, pos, slice_index_or};
ghost use Rattle.source.specs.Meaning.{Meaning};
ghost use Rattle.law.specs.Calls.{Given, given};
ghost use Rattle.law.specs.Calls.Given.{narrow, post, range};
ghost use Rattle.docket.specs.Dockets.{After, Of};
ghost use Rattle.sheet.specs.Framing.{sheet_in};
ghost use Rattle.sheet.specs.Layout.{at_box, at_ranges, at_table};
ghost use Rattle.sheet.specs.Rechecks.{calls_of, gathered, narrow_at, post_of, proposal_of, range_at, read, trial_of};
ghost use Rattle.sheet.specs.Remakes.{Remakes, as_made};

use super::Framed;
use crate::bytes::number_at;
use crate::fault::Fault;
use crate::layout::{Layout, place_of};
use docket::Docket;
use law::{Answer, Call};
use source::{Place, Source};
use span::Scale;

impl Framed<'_> {
    pub(crate) fn layout(&self) -> Layout
        ensures { (result.states ≡ self.now.states) × (result.settings ≡ self.now.settings) }
    {
        Layout::new(self.states, self.settings)
    }

    // Number t of the sheet.
    pub(crate) fn number(&self, t: usize) -> i32
        requires { t ≤ 16778490 }
        ensures { result ≡ (sheet_in self.now).number t }
    {
        number_at(self.bytes, 4 * t)
    }

    // The calls after the opening, until one is turned down.
    pub(crate) fn remake<C: Source, T: Scale>(&self, docket: &mut Docket<C, T>) -> Result<(), Fault>
        ensures { Remakes C.Source T.Scale.unit (calls_of (sheet_in self.now)) result docket.old docket.new }
    {
        self.post_all(docket)?;
        self.set_ranges(docket)?;
        self.propose(docket)?;
        self.attempt(docket)?;
        self.narrow_all(docket)
    }

    // A post for each coefficient other than 0.
    fn post_all<C: Source, T: Scale>(&self, docket: &mut Docket<C, T>) -> Result<(), Fault>
        ensures { Remakes C.Source T.Scale.unit (gathered (at_ranges self.now.states self.now.settings) (post_of (sheet_in self.now))) result docket.old docket.new }
    {
        for t in 0..self.layout().ranges() {
            self.post_one(docket, t)?;
        }
        Ok(())
    }

    fn post_one<C: Source, T: Scale>(
        &self,
        docket: &mut Docket<C, T>,
        t: usize,
    ) -> Result<(), Fault>
        requires { t ≤ 16778490 }
        ensures { Remakes C.Source T.Scale.unit (post_of (sheet_in self.now) t) result docket.old docket.new }
    {
        let amount = self.number(t);
        if amount == 0 {
            return Ok(());
        }
        let call = posting(place_of(usize::from(self.states), t), amount);
        made(docket.call(call), 4 * t)
    }

    // Every setting's range.
    fn set_ranges<C: Source, T: Scale>(&self, docket: &mut Docket<C, T>) -> Result<(), Fault>
        ensures { Remakes C.Source T.Scale.unit (gathered self.now.settings (range_at (sheet_in self.now))) result docket.old docket.new }
    {
        for v in 0..usize::from(self.settings) {
            self.set_one(docket, v)?;
        }
        Ok(())
    }

    fn set_one<C: Source, T: Scale>(&self, docket: &mut Docket<C, T>, v: usize) -> Result<(), Fault>
        requires { v < self.now.settings }
        ensures { Remakes C.Source T.Scale.unit (range_at (sheet_in self.now) v) result docket.old docket.new }
    {
        let at = self.layout().ranges() + 2 * v;
        let call = setting(v + 1, self.number(at), self.number(at + 1));
        made(docket.call(call), 4 * at)
    }

    fn propose<C: Source, T: Scale>(&self, docket: &mut Docket<C, T>) -> Result<(), Fault>
        ensures { Remakes C.Source T.Scale.unit (read (4 * at_table self.now.states self.now.settings) (proposal_of (sheet_in self.now)) ∷ []) result docket.old docket.new }
    {
        let layout = self.layout();
        let n = layout.states;
        let table = self.numbers(layout.table());
        let guesses = self.numbers(layout.guesses());
        let call = Call::Propose {
            table: &table[0..n * n],
            guesses: &guesses[0..n],
        };
        made(docket.call(call), 4 * layout.table())
    }

    fn attempt<C: Source, T: Scale>(&self, docket: &mut Docket<C, T>) -> Result<(), Fault>
        ensures { Remakes C.Source T.Scale.unit (read (4 * at_box self.now.states self.now.settings) (trial_of (sheet_in self.now)) ∷ []) result docket.old docket.new }
    {
        let layout = self.layout();
        let n = layout.states;
        let numbers = self.numbers(layout.trial());
        let call = Call::Try {
            numbers: &numbers[0..2 * n],
        };
        made(docket.call(call), 4 * layout.trial())
    }

    // The numbers from a place on, as many as any section has: in an array, since a recheck uses no
    // heap.
    fn numbers(&self, from: usize) -> [i32; 144]
        requires { from ≤ 16777980 }
        ensures long { length result ≡ 144 }
        ensures each { (t : ℕ) → t < 144 → slice_index_or result t (pos 0) ≡ (sheet_in self.now).number (from + t) }
    {
        let mut numbers = [0; 144];
        for (t, number) in numbers.iter_mut().enumerate() {
            *number = self.number(from + t);
        }
        numbers
    }

    fn narrow_all<C: Source, T: Scale>(&self, docket: &mut Docket<C, T>) -> Result<(), Fault>
        ensures { Remakes C.Source T.Scale.unit (gathered self.now.narrowings (narrow_at (sheet_in self.now))) result docket.old docket.new }
    {
        for m in 0..usize::from(self.narrowings) {
            self.narrow_one(docket, m)?;
        }
        Ok(())
    }

    fn narrow_one<C: Source, T: Scale>(
        &self,
        docket: &mut Docket<C, T>,
        m: usize,
    ) -> Result<(), Fault>
        ensures { Remakes C.Source T.Scale.unit (narrow_at (sheet_in self.now) m) result docket.old docket.new }
    {
        let call = narrowing();
        made(docket.call(call), self.layout().length() - 2)
    }
}

// A docket's answer, or its fault with the first byte of what the call read.
fn made(answer: Result<Answer, law::Fault>, byte: usize) -> Result<(), Fault>
    ensures { result ≡ as_made answer byte }
{
    answer
        .map(|_| ())
        .map_err(|fault| Fault::Docket { fault, byte })
}

fn posting<'c>(place: Place, amount: i32) -> Call<'c>
    ensures { given result ≡ post place amount }
{
    Call::Post { place, amount }
}

fn setting<'c>(part: usize, low: i32, high: i32) -> Call<'c>
    ensures { given result ≡ range part low high }
{
    Call::Range { part, low, high }
}

fn narrowing<'c>() -> Call<'c>
    ensures { given result ≡ narrow }
{
    Call::Narrow
}
