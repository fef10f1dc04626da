// A framed sheet: bytes that have the shape of one, whose figures nobody has rechecked yet.
ghost use Rattle.std.specs.Prelude.{◌≤◌};

mod framing;
mod rechecking;
mod remaking;

// It offers no ranges: those come from a recheck, which spends it.
#[derive(Drop)]
pub struct Framed<'b> {
    bytes: &'b [u8],
    // S of the scale that it was framed for
    units: u32,
    states: u8,
    settings: u8,
    narrowings: u8,
    ghost size: { (1 ≤ states) × (states ≤ 12) × (settings ≤ 8) },
}
