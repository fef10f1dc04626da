// Where the sections of a sheet begin. A section goes by its number, since the end of a sheet tells
// the distances of all five in that order.
ghost use Rattle.std.specs.Prelude.{◌≡◌, ◌<◌, ◌≤◌};
ghost use Rattle.sheet.specs.Layout.{at_box, at_claims, at_guesses, at_ranges, at_table, at_trailer, distance, place_of, section, sheet_length};

use source::Place;

// By the number of states and settings; the sections are counted in numbers of four bytes.
#[derive(Clone, Copy)]
pub(crate) struct Layout {
    pub(crate) states: usize,
    pub(crate) settings: usize,
    ghost few: { (states ≤ 255) × (settings ≤ 255) },
}

impl Layout {
    pub(crate) fn new(states: u8, settings: u8) -> Layout
        ensures { (result.states ≡ states) × (result.settings ≡ settings) }
    {
        Layout {
            states: usize::from(states),
            settings: usize::from(settings),
        }
    }

    // The coefficients stand first, so the settings begin after them.
    pub(crate) fn ranges(self) -> usize
        ensures is { result ≡ at_ranges self.states self.settings }
        ensures few { result ≤ 16711680 }
    {
        (self.settings + 1) * (self.states * (self.states + 1))
    }

    pub(crate) fn table(self) -> usize
        ensures is { result ≡ at_table self.states self.settings }
        ensures few { result ≤ 16712190 }
    {
        self.ranges() + 2 * self.settings
    }

    pub(crate) fn guesses(self) -> usize
        ensures is { result ≡ at_guesses self.states self.settings }
        ensures few { result ≤ 16777215 }
    {
        self.table() + self.states * self.states
    }

    pub(crate) fn trial(self) -> usize
        ensures is { result ≡ at_box self.states self.settings }
        ensures few { result ≤ 16777470 }
    {
        self.guesses() + self.states
    }

    pub(crate) fn claims(self) -> usize
        ensures is { result ≡ at_claims self.states self.settings }
        ensures few { result ≤ 16777980 }
    {
        self.trial() + 2 * self.states
    }

    pub(crate) fn trailer(self) -> usize
        ensures is { result ≡ at_trailer self.states self.settings }
        ensures few { result ≤ 16778490 }
    {
        self.claims() + 2 * self.states
    }

    // In bytes, with the trailer of 28.
    pub(crate) fn length(self) -> usize
        ensures is { result ≡ sheet_length self.states self.settings }
        ensures few { result ≤ 67113988 }
    {
        4 * self.trailer() + 28
    }

    // How far the first byte of a section is from the end.
    pub(crate) fn distance(self, index: usize) -> u32
        ensures { result ≡ distance self.states self.settings index }
    {
        (self.length() - 4 * self.section(index)) as u32
    }

    fn section(self, index: usize) -> usize
        ensures is { result ≡ section self.states self.settings index }
        ensures few { result ≤ at_trailer self.states self.settings }
    {
        match index {
            0 => 0,
            1 => self.ranges(),
            2 => self.table(),
            3 => self.trial(),
            _ => self.claims(),
        }
    }
}

// The place of coefficient t: part by part, row by row, those of the matrix and then the payout.
pub(crate) fn place_of(n: usize, t: usize) -> Place
    requires { (0 < n) × (n ≤ 255) }
    ensures { result ≡ place_of n t }
{
    let part = t / (n * (n + 1));
    let row = t / (n + 1) % n;
    let column = t % (n + 1);
    if column == n {
        Place::Payout { part, row }
    } else {
        Place::Matrix { part, row, column }
    }
}
