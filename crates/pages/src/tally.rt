// What one input, and all inputs, came to so far.
ghost use Rattle.std.specs.Prelude.{◌≡◌};
ghost use Rattle.pages.specs.Tallies.{Counted, closed, game_after, if_more, is_refused, is_table, none_yet, nothing_asked};

use asking::Asked;
use law::Reply;
use script::Answer;
use span::Fault;
use wording::Rows;

// One input.
#[derive(Clone, Copy)]
pub struct Game {
    // something was asked of a docket
    pub asked: bool,
    // a table was given
    pub table: bool,
    // nothing was turned down or bad
    pub clean: bool,
}

impl Game {
    pub fn new() -> Game
        ensures { result ≡ nothing_asked }
    {
        Game {
            asked: false,
            table: false,
            clean: true,
        }
    }

    // An ask, by its first reply.
    pub fn count(&mut self, asked: &Asked, first: &Reply)
        ensures { self.new ≡ game_after self.old (is_table asked.now) (is_refused first.now) }
    {
        self.asked = true;
        if refused(first) {
            self.clean = false;
        } else if table(asked) {
            self.table = true;
        }
    }
}

pub fn refused(reply: &Reply) -> bool
    ensures { result ≡ is_refused reply.now }
{
    match reply {
        Reply::Made(made) => made.is_err(),
        Reply::Told(row) => row.is_err(),
    }
}

fn table(asked: &Asked) -> bool
    ensures { result ≡ is_table asked.now }
{
    matches!(asked, Asked::Table)
}

// All inputs.
#[derive(Clone, Copy)]
pub struct Tally {
    // nothing was turned down, bad or unreadable
    pub clean: bool,
    pub rows: Rows,
    // games, those of which a line was turned down or bad, and the others that have a table
    pub games: i64,
    pub tables: i64,
    pub refused: i64,
}

impl Tally {
    pub fn new() -> Tally
        ensures { result ≡ none_yet }
    {
        Tally {
            clean: true,
            rows: Rows::none(),
            games: 0,
            tables: 0,
            refused: 0,
        }
    }

    pub fn count(&mut self, found: &Result<Answer, Fault>)
        ensures { Counted self.old found.now self.new }
    {
        match found {
            Ok(answer) => self.rows.count(answer),
            Err(_) => self.clean = false,
        }
    }

    // An input that is done.
    pub fn close(&mut self, game: Game)
        ensures { self.new ≡ closed self.old game }
    {
        self.clean = self.clean && game.clean;
        self.games = counted(self.games, game.asked);
        self.tables = counted(self.tables, game.table && game.clean);
        self.refused = counted(self.refused, game.asked && !game.clean);
    }
}

fn counted(n: i64, another: bool) -> i64
    ensures { result ≡ if_more another n }
{
    if another { n.saturating_add(1) } else { n }
}
