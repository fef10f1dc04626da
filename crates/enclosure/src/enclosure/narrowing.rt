// Narrowing what is held, and telling a row of it.
ghost use Rattle.std.specs.Prelude.{◌≡◌, ℕ, length, Err, ◌≢◌};
ghost use Rattle.method.specs.Method.{Game, Proposal};
ghost use Rattle.span.specs.Intervals.{Interval};
ghost use Rattle.enclosure.specs.declared.fault.Fault.TheVariants.{OtherScale};
ghost use Rattle.enclosure.specs.Enclosures.{Held, NarrowedTo, Told};

use super::Enclosure;
use super::holding::same_scale;
use crate::fault::Fault;
use crate::step::step;
use prepare::Prepared;
use span::{Scale, Span};

impl Enclosure {
    // Replaces V by the step with V as the box.
    pub fn narrow<T: Scale>(&mut self) -> Result<(), Fault>
        ensures scale { (T.Scale.unit ≢ self.old.prepared.units) → (result ≡ Err (OtherScale self.old.prepared.units)) × (self.new ≡ self.old) }
        ensures narrowed { (G : Game) (H : Proposal) (Y : ℕ → Interval) (m : ℕ) → Held T.Scale.unit G H Y m self.old → NarrowedTo T.Scale.unit G H Y m self.old self.new result }
        ensures kept { self.new.prepared ≡ self.old.prepared }
    {
        // a copy: while a part of self is lent, no proof tells that a refusal leaves self as it was
        let prepared = self.prepared;
        same_scale::<T>(&prepared)?;
        if self.narrowings >= 16 {
            return Err(Fault::Narrowed);
        }
        self.correction = step::<T>(&prepared, &self.correction);
        self.narrowings += 1;
        Ok(())
    }

    // The held range of a row, guess + V.
    pub fn row(&self, row: usize) -> Result<Span, Fault>
        ensures { Told self.now row result }
    {
        if row >= self.prepared.states() {
            return Err(Fault::NoRow { row });
        }
        let guess = Span::point(i64::from(self.prepared.guesses()[row]));
        Ok(guess.add(self.correction[row]).unwrap())
    }

    // What the box was tried with.
    pub fn prepared(&self) -> &Prepared
        ensures { result.now ≡ self.now.prepared }
    {
        &self.prepared
    }

    // The box that was accepted, row by row.
    pub fn trial(&self) -> &[Span]
        ensures value { result.now ≡ self.now.trial }
        ensures long { length result.now ≡ 12 }
    {
        &self.trial
    }

    // How many narrowings are done.
    pub fn narrowings(&self) -> u8
        ensures { result ≡ self.now.narrowings }
    {
        self.narrowings
    }
}
