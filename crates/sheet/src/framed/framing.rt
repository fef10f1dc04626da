// Framing: whether bytes have the shape of a sheet.
ghost use Rattle.std.specs.Prelude.{◌≡◌, ◌≤◌, ◌∷◌, length, Some, None, Ok, Err};
ghost use Rattle.span.specs.Questions.{first_no};
ghost use Rattle.sheet.specs.Framing.{Framing, Passes, distances_asked, head_questions, k_at, length_asked, m_at, n_at};

use super::Framed;
use crate::bytes::{byte_at, unsigned_at};
use crate::fault::Fault;
use crate::layout::Layout;
use span::Scale;

impl<'b> Framed<'b> {
    // The bytes as a sheet of the named scale.
    pub fn new<T: Scale>(bytes: &'b [u8]) -> Result<Framed<'b>, Fault>
        ensures { Framing T.Scale.unit bytes.now result }
    {
        let length = bytes.len();
        if length < 28 {
            return Err(Fault::Short);
        }
        let units = unsigned_at(bytes, length - 8);
        if i64::from(units) != T::units() {
            return Err(Fault::OtherScale { byte: length - 8 });
        }
        let (states, settings, narrowings) = head(bytes)?;
        measured(bytes, Layout::new(states, settings))?;
        Ok(Framed {
            bytes,
            units,
            states,
            settings,
            narrowings,
        })
    }
}

// n, k and the narrowings, before the zero that ends a sheet. The 28 bytes are asked of all bytes, and
// not cut off, since a fault tells where it is in the whole.
fn head(bytes: &[u8]) -> Result<(u8, u8, u8), Fault>
    requires { 28 ≤ length bytes.now }
    ensures { elim result [ Ok p ↦ (first_no (head_questions 0 bytes.now) ≡ None) × (p.0 ≡ n_at 0 bytes.now) × (p.1 ≡ k_at 0 bytes.now) × (p.2 ≡ m_at 0 bytes.now) | Err f ↦ first_no (head_questions 0 bytes.now) ≡ Some f ] }
{
    let length = bytes.len();
    let states = byte_at(bytes, length - 4);
    if states < 1 || states > 12 {
        return Err(Fault::Head { byte: length - 4 });
    }
    let settings = byte_at(bytes, length - 3);
    if settings > 8 {
        return Err(Fault::Head { byte: length - 3 });
    }
    let narrowings = byte_at(bytes, length - 2);
    if narrowings > 16 {
        return Err(Fault::Head { byte: length - 2 });
    }
    if byte_at(bytes, length - 1) != 0 {
        return Err(Fault::Head { byte: length - 1 });
    }
    Ok((states, settings, narrowings))
}

// Are the length and the distances as n and k give?
fn measured(bytes: &[u8], layout: Layout) -> Result<(), Fault>
    requires { 28 ≤ length bytes.now }
    ensures { Passes (length_asked bytes.now layout.states layout.settings ∷ distances_asked bytes.now layout.states layout.settings) result }
{
    if bytes.len() != layout.length() {
        return Err(Fault::Length { byte: 0 });
    }
    distances(bytes, layout)
}

fn distances(bytes: &[u8], layout: Layout) -> Result<(), Fault>
    requires { 28 ≤ length bytes.now }
    ensures { Passes (distances_asked bytes.now layout.states layout.settings) result }
{
    let trailer = bytes.len() - 28;
    for section in 0..5 {
        let byte = trailer + 4 * section;
        if unsigned_at(bytes, byte) != layout.distance(section) {
            return Err(Fault::Length { byte });
        }
    }
    Ok(())
}
