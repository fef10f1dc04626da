// Opening a system, and posting into it.
ghost use Rattle.std.specs.Prelude.{◌≡◌, ℕ, ◌^◌, ◌<◌, ◌≤◌, true, false, ◌&&◌, replicate, pos, ◌+ℤ◌, Some, None, nat_le, unsigned_abs};
ghost use Rattle.span.specs.Intervals.{point};
ghost use Rattle.system.specs.Figures.{FirstBeyond, Small, matrix_index, matrix_spot, payout_index, payout_spot, spans};
ghost use Rattle.system.specs.Posts.{Decided, Filled, MatrixAdded, Opened, PayoutAdded, RangeSet, has_coefficient, has_payout, has_setting, is_size, matrix_questions, payout_questions, range_questions};

use super::System;
use crate::fault::Fault;
use span::{Scale, Span, Spot, sum_within};

impl System {
    // n states and k settings, nothing posted, every setting 0..0.
    pub fn new<T: Scale>(states: usize, settings: usize) -> Result<System, Fault>
        ensures { Opened T.Scale.unit states settings result }
    {
        if !is_size(states, settings) {
            return Err(Fault::Size { states, settings });
        }
        Ok(System {
            units: T::units() as u32,
            states,
            settings,
            matrix: zeros(),
            payouts: zeros(),
            ranges: zero_ranges(),
        })
    }

    // Adds the amount to one coefficient of the matrix.
    pub fn post_matrix(
        &mut self,
        part: usize,
        row: usize,
        column: usize,
        amount: i32,
    ) -> Result<(), Fault>
        ensures { Decided (matrix_questions self.old part row column amount) self.old self.new result (MatrixAdded self.old self.new part row column amount) }
    {
        let spot = Spot { part, row, column };
        let Some(at) = self.matrix_index(part, row, column) else {
            return Err(Fault::Outside(spot));
        };
        let Some(sum) = sum_within(self.units, self.matrix[at], amount) else {
            return Err(Fault::SumTooLarge(spot));
        };
        self.matrix[at] = sum;
        Ok(())
    }

    // Adds the amount to one payout.
    pub fn post_payout(&mut self, part: usize, row: usize, amount: i32) -> Result<(), Fault>
        ensures { Decided (payout_questions self.old part row amount) self.old self.new result (PayoutAdded self.old self.new part row amount) }
    {
        let spot = Spot {
            part,
            row,
            column: 12,
        };
        let Some(at) = self.payout_index(part, row) else {
            return Err(Fault::Outside(spot));
        };
        let Some(sum) = sum_within(100 * self.units, self.payouts[at], amount) else {
            return Err(Fault::SumTooLarge(spot));
        };
        self.payouts[at] = sum;
        Ok(())
    }

    // Sets one setting's range.
    pub fn set_range(&mut self, part: usize, low: i32, high: i32) -> Result<(), Fault>
        ensures { Decided (range_questions self.old part low high) self.old self.new result (RangeSet self.old self.new part low high) }
    {
        if !self.has_setting(part) {
            return Err(Fault::NoSetting(part));
        }
        let Ok(range) = Span::new(i64::from(low), i64::from(high)) else {
            return Err(Fault::RangeReversed(part));
        };
        if !both_within(self.units, low, high) {
            return Err(Fault::RangeTooWide(part));
        }
        self.ranges[part] = range;
        Ok(())
    }

    // The same states, settings and ranges with these coefficients and payouts, each at its index.
    pub fn filled(&self, matrix: &[i32; 1296], payouts: &[i32; 108]) -> Result<System, Fault>
        ensures { Filled self.now matrix.now payouts.now result }
    {
        if let Some(at) = beyond(matrix, self.units) {
            return Err(Fault::SumTooLarge(matrix_spot(at)));
        }
        if let Some(at) = beyond(payouts, 100 * self.units) {
            return Err(Fault::SumTooLarge(payout_spot(at)));
        }
        Ok(System {
            units: self.units,
            states: self.states,
            settings: self.settings,
            matrix: *matrix,
            payouts: *payouts,
            ranges: self.ranges,
        })
    }

    // Where the coefficient stands, if there is one.
    fn matrix_index(&self, part: usize, row: usize, column: usize) -> Option<usize>
        ensures { elim result [ Some at ↦ (at ≡ matrix_index part row column) × (at < 1296) × (has_coefficient self.now part row column ≡ true) | None ↦ has_coefficient self.now part row column ≡ false ] }
    {
        if part > self.settings || row >= self.states || column >= self.states {
            return None;
        }
        Some((part * 12 + row) * 12 + column)
    }

    // Where the payout stands, if there is one.
    fn payout_index(&self, part: usize, row: usize) -> Option<usize>
        ensures { elim result [ Some at ↦ (at ≡ payout_index part row) × (at < 108) × (has_payout self.now part row ≡ true) | None ↦ has_payout self.now part row ≡ false ] }
    {
        if part > self.settings || row >= self.states {
            return None;
        }
        Some(part * 12 + row)
    }

    // Is the part a setting's?
    fn has_setting(&self, part: usize) -> bool
        ensures { result ≡ has_setting self.now part }
    {
        part >= 1 && part <= self.settings
    }
}

// Can a system have that many?
fn is_size(states: usize, settings: usize) -> bool
    ensures { result ≡ is_size states settings }
{
    states >= 1 && states <= 12 && settings <= 8
}

fn zeros<const N: usize>() -> [i32; N]
    ensures { result ≡ replicate N (pos 0) }
{
    [0; N]
}

fn zero_ranges() -> [Span; 9]
    ensures { (v : ℕ) → spans result v ≡ point (pos 0) }
{
    [Span::default(); 9]
}

// Where the first number stands that is not within the limit.
fn beyond(numbers: &[i32], limit: u32) -> Option<usize>
    ensures { elim result [ None ↦ Small limit numbers.now | Some at ↦ FirstBeyond limit numbers.now at ] }
{
    numbers.iter().position(|x| x.unsigned_abs() > limit)
}

fn matrix_spot(at: usize) -> Spot
    ensures { result ≡ matrix_spot at }
{
    Spot {
        part: at / 144,
        row: at / 12 % 12,
        column: at % 12,
    }
}

fn payout_spot(at: usize) -> Spot
    ensures { result ≡ payout_spot at }
{
    Spot {
        part: at / 12,
        row: at % 12,
        column: 12,
    }
}

// Are both figures within the limit?
fn both_within(limit: u32, low: i32, high: i32) -> bool
    ensures { result ≡ (nat_le (unsigned_abs low) limit && nat_le (unsigned_abs high) limit) }
{
    low.unsigned_abs() <= limit && high.unsigned_abs() <= limit
}
