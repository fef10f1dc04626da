// The programs: what each takes, and its words for that.

#[derive(Clone, Copy, PartialEq, Eq, Debug)]
pub enum Program {
    // calls about rows and spans
    Rows,
    // a game's calls too, over a source that may be chosen
    Games,
}

const ROWS_HELP: &str = "\
worth FILE...     answers the calls of each file
worth < FILE      answers the calls of standard input
  --answers                     one bare line for each call, for other programs
  --scale millionths|binary     how many units make one whole; millionths if not given
  --help                        this text
";

const GAMES_HELP: &str = "\
worth FILE...     answers the calls of each file
worth < FILE      answers the calls of standard input
  --answers                     one bare line for each call, for other programs
  --scale millionths|binary     how many units make one whole; millionths if not given
  --source grid|list|grid:M:P|list:M:P
                                where coefficients are kept, with room for M matrix entries
                                and P payouts; a grid with room for all if not given
  --help                        this text
";

impl Program {
    pub(crate) fn help(self) -> &'static str {
        match self {
            Program::Rows => ROWS_HELP,
            Program::Games => GAMES_HELP,
        }
    }

    // Every option, in words.
    pub(crate) fn options(self) -> &'static str {
        match self {
            Program::Rows => "--answers, --scale millionths, --scale binary or --help",
            Program::Games => "--answers, --scale, --source or --help",
        }
    }

    // The options that an input's first line may have.
    pub(crate) fn file_options(self) -> &'static str {
        match self {
            Program::Rows => "--scale millionths or --scale binary",
            Program::Games => "--scale or --source",
        }
    }
}
