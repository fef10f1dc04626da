// What can be done with spans. Every result is exact, or the operation is turned down.
ghost use Rattle.std.specs.Prelude.{◌≡◌, ◌*ℤ◌, ◌≤ℤ◌, ◌<ℤ◌, IfOk, Ok, Err, FitsSigned, pos};
ghost use Rattle.std.specs.Int.{w64};
ghost use Rattle.span.specs.declared.fault.Fault.TheVariants.{LowAboveHigh, TooLarge};
ghost use Rattle.span.specs.declared.fault.Operation.TheVariants.{Sum, Difference, Product};
ghost use Rattle.span.specs.Encloses.{Sums, Differences, Products, Quotients};
ghost use Rattle.span.specs.Intervals.{EndProducts, Interval, point, ◌+ᵢ◌, ◌-ᵢ◌, ◌*ᵢ◌, brought, least, greatest};
ghost use Rattle.span.specs.Rounding.{GreatestNotAbove, LeastNotBelow, ceiling, floor};
ghost use Rattle.span.specs.Spans.{Answers, Ends, Fits, ends};

use super::Span;
use crate::fault::{Fault, Operation};
use crate::scale::Scale;

impl Span {
    // The span from low to high, where low is not above high.
    pub fn new(low: i64, high: i64) -> Result<Span, Fault>
        ensures { elim result [ Ok s ↦ ends s ≡ record { low = low; high = high } | Err e ↦ (e ≡ LowAboveHigh low high) × (high <ℤ low) ] }
    {
        if low > high {
            return Err(Fault::LowAboveHigh { low, high });
        }
        Ok(Span { low, high })
    }

    // The span of the one figure x.
    pub fn point(x: i64) -> Span
        ensures { ends result ≡ point x }
    {
        Span { low: x, high: x }
    }

    // The ends added.
    pub fn add(self, other: Span) -> Result<Span, Fault>
        ensures value { Answers result (ends self +ᵢ ends other) (TooLarge Sum) }
        ensures ordered { IfOk result (λ s. s.low ≤ℤ s.high) }
        ensures encloses { IfOk result (λ s. Sums (ends self) (ends other) (ends s)) }
    {
        let (low, high) = end_sums(self, other)?;
        Ok(Span { low, high })
    }

    // Low minus high, and high minus low.
    pub fn subtract(self, other: Span) -> Result<Span, Fault>
        ensures value { Answers result (ends self -ᵢ ends other) (TooLarge Difference) }
        ensures ordered { IfOk result (λ s. s.low ≤ℤ s.high) }
        ensures encloses { IfOk result (λ s. Differences (ends self) (ends other) (ends s)) }
    {
        let (low, high) = end_differences(self, other)?;
        Ok(Span { low, high })
    }

    // The least and the greatest of the four end products.
    pub fn multiply(self, other: Span) -> Result<Span, Fault>
        ensures value { Answers result (ends self *ᵢ ends other) (TooLarge Product) }
        ensures ordered { IfOk result (λ s. s.low ≤ℤ s.high) }
        ensures encloses { IfOk result (λ s. Products (ends self) (ends other) (ends s)) }
    {
        let (a, b, c, d) = end_products(self, other)?;
        Ok(Span {
            low: least_of(a, b, c, d),
            high: greatest_of(a, b, c, d),
        })
    }

    // The lower figure of the low end and the upper figure of the high end.
    pub fn bring_back<T: Scale>(self) -> Span
        ensures value { ends result ≡ brought T.Scale.unit (ends self) }
        ensures lower { GreatestNotAbove T.Scale.unit self.low result.low }
        ensures upper { LeastNotBelow T.Scale.unit self.high result.high }
        ensures ordered { result.low ≤ℤ result.high }
        ensures encloses { Quotients T.Scale.unit (ends self) (ends result) }
    {
        let (low, high) = outward::<T>(self);
        Span { low, high }
    }
}

// The one figure 0.
impl Default for Span {
    ghost is_default = { λ s. ends s ≡ point (pos 0) };

    fn default() -> Span {
        Span::point(0)
    }
}

fn end_sums(s: Span, t: Span) -> Result<(i64, i64), Fault>
    ensures { Ends result (ends s +ᵢ ends t) (TooLarge Sum) }
{
    let (Some(low), Some(high)) = (s.low.checked_add(t.low), s.high.checked_add(t.high)) else {
        return Err(Fault::TooLarge(Operation::Sum));
    };
    Ok((low, high))
}

fn end_differences(s: Span, t: Span) -> Result<(i64, i64), Fault>
    ensures { Ends result (ends s -ᵢ ends t) (TooLarge Difference) }
{
    let (Some(low), Some(high)) = (s.low.checked_sub(t.high), s.high.checked_sub(t.low)) else {
        return Err(Fault::TooLarge(Operation::Difference));
    };
    Ok((low, high))
}

// The lower figure of the low end, and the upper of the high end.
fn outward<T: Scale>(s: Span) -> (i64, i64)
    ensures { (result.0 ≡ floor T.Scale.unit s.low) × (result.1 ≡ ceiling T.Scale.unit s.high) }
{
    let (lower, _) = T::bring_back(s.low);
    let (_, upper) = T::bring_back(s.high);
    (lower, upper)
}

// The four products of an end of s and an end of t.
fn end_products(s: Span, t: Span) -> Result<(i64, i64, i64, i64), Fault>
    ensures { elim result [ Ok p ↦ EndProducts (ends s) (ends t) p.0 p.1 p.2 p.3 | Err e ↦ (e ≡ TooLarge Product) × (Fits (ends s *ᵢ ends t) → ⊥) ] }
{
    let a = product(s.low, t.low)?;
    let b = product(s.low, t.high)?;
    let c = product(s.high, t.low)?;
    let d = product(s.high, t.high)?;
    Ok((a, b, c, d))
}

fn product(x: i64, y: i64) -> Result<i64, Fault>
    ensures { elim result [ Ok z ↦ z ≡ x *ℤ y | Err e ↦ (e ≡ TooLarge Product) × (FitsSigned w64 (x *ℤ y) → ⊥) ] }
{
    x.checked_mul(y).ok_or(Fault::TooLarge(Operation::Product))
}

fn least_of(a: i64, b: i64, c: i64, d: i64) -> i64
    ensures { result ≡ least a b c d }
{
    a.min(b).min(c.min(d))
}

fn greatest_of(a: i64, b: i64, c: i64, d: i64) -> i64
    ensures { result ≡ greatest a b c d }
{
    a.max(b).max(c.max(d))
}
