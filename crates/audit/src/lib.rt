// An old row looked at again: what it must read, what dropping remainders made of it, and
// whether an end had moved inward.
#![tactic(auto)]

ghost use Rattle.std.specs.Prelude.{◌≡◌, FitsSigned, int_lt};
ghost use Rattle.std.specs.Int.{w64};
ghost use Rattle.span.specs.declared.fault.Fault.TheVariants.{TooLarge};
ghost use Rattle.span.specs.declared.fault.Operation.TheVariants.{Sum};
ghost use Rattle.span.specs.Spans.{Answers, ends};
ghost use Rattle.audit.specs.Rows.{Audited, due_row, dropped_end};

use span::{Fault, Scale, Span};

// What was found of one row.
#[derive(Clone, Copy, Debug)]
pub struct Finding {
    // the row as it must be printed
    due: Span,
    // the row that dropping remainders prints
    dropped_low: i64,
    dropped_high: i64,
}

// Looks at a row again, given by its guess and the exact sums of its two ends, S times the
// correction each.
pub fn audit<T: Scale>(guess: i64, sums: Span) -> Result<Finding, Fault>
    ensures { Audited T.Scale.unit guess sums result }
{
    let due = due_row::<T>(guess, sums)?;
    let dropped_low = dropped_end::<T>(guess, sums.low());
    let dropped_high = dropped_end::<T>(guess, sums.high());
    Ok(Finding {
        due,
        dropped_low,
        dropped_high,
    })
}

// The row as it must be printed.
fn due_row<T: Scale>(guess: i64, sums: Span) -> Result<Span, Fault>
    ensures { Answers result (due_row T.Scale.unit guess (ends sums)) (TooLarge Sum) }
{
    Span::point(guess).add(sums.bring_back::<T>())
}

// An end with its remainder dropped.
fn dropped_end<T: Scale>(guess: i64, sum: i64) -> i64
    requires { FitsSigned w64 (dropped_end T.Scale.unit guess sum) }
    ensures { result ≡ dropped_end T.Scale.unit guess sum }
{
    guess + sum / T::units()
}

impl Finding {
    pub fn due(&self) -> Span
        ensures { result ≡ self.now.due }
    {
        self.due
    }

    // The ends that dropping remainders prints.
    pub fn dropped(&self) -> (i64, i64)
        ensures { result ≡ (self.now.dropped_low, self.now.dropped_high) }
    {
        (self.dropped_low, self.dropped_high)
    }

    // Whether the low end had moved inward.
    pub fn low_moved(&self) -> bool
        ensures { result ≡ int_lt self.now.due.low self.now.dropped_low }
    {
        self.dropped_low > self.due.low()
    }

    // Whether the high end had moved inward.
    pub fn high_moved(&self) -> bool
        ensures { result ≡ int_lt self.now.dropped_high self.now.due.high }
    {
        self.dropped_high < self.due.high()
    }
}
