// What writing, framing or rechecking a sheet is turned down with.
ghost use Rattle.std.specs.Prelude.{◌≡◌};
ghost use Rattle.sheet.specs.Faults.{byte, layer, number, place};

use span::{Layer, Spot};

#[derive(Clone, Copy, PartialEq, Eq, Debug)]
pub enum Fault {
    // 14: no ranges are held, so there is nothing to write
    NotHeld,
    // 16: the buffer is shorter than the sheet
    NoRoom,
    // 30: fewer than 28 bytes
    Short,
    // 31: S is not that of the scale
    OtherScale { byte: usize },
    // 32: n, k, the narrowings or the zero
    Head { byte: usize },
    // 33: the length (byte 0) or a distance is not as n and k give
    Length { byte: usize },
    // 34: a claim is not the end that is held
    OtherClaim { row: usize, byte: usize },
    // 1: the row is not below n
    NoRow { row: usize },
    // a docket's fault as it came, with the first byte of what the call read
    Docket { fault: law::Fault, byte: usize },
}

impl Fault {
    pub fn number(&self) -> u8
        ensures { result ≡ number self.now }
    {
        match self {
            Fault::NotHeld => 14,
            Fault::NoRoom => 16,
            Fault::Short => 30,
            Fault::OtherScale { .. } => 31,
            Fault::Head { .. } => 32,
            Fault::Length { .. } => 33,
            Fault::OtherClaim { .. } => 34,
            Fault::NoRow { .. } => 1,
            Fault::Docket { fault, .. } => fault.number(),
        }
    }

    pub fn layer(&self) -> Layer
        ensures { result ≡ layer self.now }
    {
        match self {
            Fault::Docket { fault, .. } => fault.layer(),
            _ => Layer::Sheet,
        }
    }

    pub fn place(&self) -> Spot
        ensures { result ≡ place self.now }
    {
        match self {
            Fault::Docket { fault, .. } => fault.place(),
            Fault::OtherClaim { row, .. } => Spot::of_row(*row),
            Fault::NoRow { row } => Spot::of_row(*row),
            _ => Spot::default(),
        }
    }

    // The first byte of the first wrong field, or of what a call read.
    pub fn byte(&self) -> usize
        ensures { result ≡ byte self.now }
    {
        match *self {
            Fault::OtherScale { byte } => byte,
            Fault::Head { byte } => byte,
            Fault::Length { byte } => byte,
            Fault::OtherClaim { byte, .. } | Fault::Docket { byte, .. } => byte,
            _ => 0,
        }
    }
}
