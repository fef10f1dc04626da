// The worked figures, run on the code and proved of the rules.
ghost use Rattle.std.specs.Prelude.{◌≡◌, pos, negsuc, Ok, Err};
ghost use Rattle.span.specs.Spans.{ends};
ghost use Rattle.figures.specs.Worked.{Worked, from_to};

use span::{Fault, Millionths, Scale, Span};

// What -1 and 2,000,000 come to by millionths, and what -2..3 times -5..4 is.
pub fn figures() -> Result<(Span, Span, Span), Fault>
    ensures rules { Worked }
    ensures value { elim result [ Ok f ↦ (ends f.0 ≡ from_to (negsuc 0) (pos 0)) × (ends f.1 ≡ from_to (pos 2) (pos 2)) × (ends f.2 ≡ from_to (negsuc 14) (pos 12)) | Err e ↦ ⊥ ] }
{
    let minus_one = Span::point(-1).bring_back::<Millionths>();
    let two = Span::point(2_000_000).bring_back::<Millionths>();
    let product = Span::new(-2, 3)?.multiply(Span::new(-5, 4)?)?;
    Ok((minus_one, two, product))
}
