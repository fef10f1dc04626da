// What a line puts to the run, with its bytes and numbers owned.
ghost use Rattle.std.specs.Prelude.{◌≡◌};
ghost use Rattle.pages.specs.Puts.{longest, posed_count, posed_puts, put, room_of};

use asking::Asked;
use filing::Step;

#[derive(Drop)]
pub enum Posed {
    // asks of the docket
    Game(Asked),
    // the sheet, in a buffer of that size, or of just the length that it needs
    Write { room: Option<usize> },
    // bytes to be framed, for the docket's own scale or for the other one, and rechecked
    Check { bytes: Vec<u8>, own: bool },
}

// No sheet is longer: that of 12 states and 8 settings.
const LONGEST: usize = 8340;

impl Posed {
    // How many steps it makes.
    pub fn count(&self) -> usize
        ensures { result ≡ posed_count self.now }
    {
        match self {
            Posed::Game(asked) => asked.count(),
            _ => 1,
        }
    }

    // Its step of this number, from 0 on.
    pub fn step(&self, number: usize) -> Step<'_>
        ensures { put result ≡ posed_puts self.now number }
    {
        match self {
            Posed::Game(asked) => Step::Asking(asked.ask(number)),
            Posed::Write { room } => Step::Write {
                room: buffer(*room),
            },
            Posed::Check { bytes, own } => Step::Check {
                bytes: bytes.as_slice(),
                own: *own,
            },
        }
    }
}

fn buffer(room: Option<usize>) -> usize
    ensures { result ≡ room_of room }
{
    room.unwrap_or(LONGEST)
}
