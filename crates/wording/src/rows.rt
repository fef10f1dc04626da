// How many old rows were looked at, and how many of them had moved.
ghost use Rattle.std.specs.Prelude.{◌≡◌};
ghost use Rattle.wording.specs.Rows.{Counted, RowCounted, no_rows};

use crate::moved::Moved;
use script::Answer;

#[derive(Clone, Copy, PartialEq, Eq, Debug)]
pub struct Rows {
    pub looked_at: i64,
    pub moved: i64,
}

impl Rows {
    pub fn none() -> Rows
        ensures { result ≡ no_rows }
    {
        Rows {
            looked_at: 0,
            moved: 0,
        }
    }

    // Counts an answer, if it is a row's.
    pub fn count(&mut self, answer: &Answer)
        ensures { Counted self.old answer.now self.new }
    {
        if let Answer::Row(finding) = answer {
            self.count_row(Moved::of(finding));
        }
    }

    fn count_row(&mut self, moved: Moved)
        ensures { RowCounted self.old moved self.new }
    {
        self.looked_at = self.looked_at.saturating_add(1);
        if moved != Moved::Neither {
            self.moved = self.moved.saturating_add(1);
        }
    }
}
