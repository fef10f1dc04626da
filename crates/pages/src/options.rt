// What the words of the command line, and of an input's first line, ask for.
use crate::program::Program;
use crate::store::Store;
use span::Measure;
use std::alloc::{AllocError, AllocFailed, Global};
use std::env::Args;
use std::fmt;
use std::str::from_utf8;

#[derive(Drop)]
pub struct Settings {
    pub program: Program,
    pub answers: bool,
    pub help: bool,
    pub choices: Choices,
    pub files: Vec<String>,
}

// What an input may choose for itself. Where one is given twice, the first counts.
#[derive(Clone, Copy)]
pub struct Choices {
    pub measure: Option<Measure>,
    pub store: Option<Store>,
}

// An option whose value is the next word.
#[derive(Clone, Copy)]
pub enum Valued {
    Scale,
    Source,
}

// Words that ask for nothing known.
#[derive(Drop)]
pub enum Misuse {
    UnknownOption(Program, String),
    UnknownScale(String),
    UnknownSource(String),
    NoScale,
    NoSource,
    NotForFiles(Program, String),
    NotText(Program),
    OutOfMemory,
}

impl Settings {
    // The words of the command line, the program's own name first.
    pub(crate) fn read(heap: Global, program: Program, words: Args) -> Result<Settings, Misuse> {
        let mut settings = Settings {
            program,
            answers: false,
            help: false,
            choices: Choices::none(),
            files: Vec::new(heap),
        };
        let mut words = words.skip(1);
        while let Some(word) = words.next() {
            match Valued::named(program, word.as_str()) {
                Some(option) => {
                    let value = words.next().ok_or(option.without_value())?;
                    settings.choices = settings.choices.with(heap, option, value.as_str())?;
                }
                None => settings.take(word)?,
            }
        }
        Ok(settings)
    }

    // A word that stands alone.
    fn take(&mut self, word: String) -> Result<(), Misuse> {
        if word.as_str() == "--answers" {
            self.answers = true;
        } else if word.as_str() == "--help" {
            self.help = true;
        } else if word.as_str().starts_with('-') {
            return Err(Misuse::UnknownOption(self.program, word));
        } else {
            self.files.push(word)?;
        }
        Ok(())
    }
}

impl Valued {
    // A program of rows has no source to choose.
    fn named(program: Program, word: &str) -> Option<Valued> {
        match (program, word) {
            (_, "--scale") => Some(Valued::Scale),
            (Program::Games, "--source") => Some(Valued::Source),
            _ => None,
        }
    }

    fn without_value(self) -> Misuse {
        match self {
            Valued::Scale => Misuse::NoScale,
            Valued::Source => Misuse::NoSource,
        }
    }
}

impl Choices {
    pub(crate) fn none() -> Choices {
        Choices {
            measure: None,
            store: None,
        }
    }

    fn with(self, heap: Global, option: Valued, word: &str) -> Result<Choices, Misuse> {
        match option {
            Valued::Scale => Ok(Choices {
                measure: self.measure.or(Some(scale(heap, word)?)),
                ..self
            }),
            Valued::Source => Ok(Choices {
                store: self.store.or(Some(source(heap, word)?)),
                ..self
            }),
        }
    }
}

// What an input's first line asks for, as `#! --scale binary --source list`.
pub(crate) fn first_line(heap: Global, program: Program, line: &[u8]) -> Result<Choices, Misuse> {
    let Some(bytes) = line.strip_prefix(b"#!") else {
        return Ok(Choices::none());
    };
    let words = from_utf8(bytes).map_err(|_| Misuse::NotText(program))?;
    file_choices(heap, program, words)
}

fn file_choices(heap: Global, program: Program, words: &str) -> Result<Choices, Misuse> {
    let mut choices = Choices::none();
    let mut words = words.split_whitespace();
    while let Some(word) = words.next() {
        let Some(option) = Valued::named(program, word) else {
            return Err(Misuse::NotForFiles(program, String::from_str(heap, word)?));
        };
        let value = words.next().ok_or(option.without_value())?;
        choices = choices.with(heap, option, value)?;
    }
    Ok(choices)
}

// What is wrong with a value is told with its text, which takes memory: so no `map_err` here.
fn scale(heap: Global, word: &str) -> Result<Measure, Misuse> {
    match word.parse() {
        Ok(measure) => Ok(measure),
        Err(_) => Err(Misuse::UnknownScale(String::from_str(heap, word)?)),
    }
}

fn source(heap: Global, word: &str) -> Result<Store, Misuse> {
    match word.parse() {
        Ok(store) => Ok(store),
        Err(_) => Err(Misuse::UnknownSource(String::from_str(heap, word)?)),
    }
}

impl From<AllocError> for Misuse {
    fn from(_error: AllocError) -> Misuse {
        Misuse::OutOfMemory
    }
}

impl<T: Drop> From<AllocFailed<T>> for Misuse {
    fn from(_refused: AllocFailed<T>) -> Misuse {
        Misuse::OutOfMemory
    }
}

impl fmt::Display for Misuse {
    fn fmt<W: fmt::Write>(&self, f: &mut fmt::Formatter<W>) -> fmt::Result {
        match self {
            Misuse::UnknownOption(program, word) => {
                let options = program.options();
                write!(f, "\"{word}\" is no option; expected {options}")
            }
            Misuse::UnknownScale(word) => write!(
                f,
                "\"{word}\" is no scale; expected millionths or binary"
            ),
            Misuse::UnknownSource(word) => write!(
                f,
                "\"{word}\" is no source; expected grid, list, grid:M:P or list:M:P, M and P up to 4096"
            ),
            Misuse::NoScale => write!(f, "--scale has no value; expected millionths or binary"),
            Misuse::NoSource => write!(
                f,
                "--source has no value; expected grid, list, grid:M:P or list:M:P"
            ),
            Misuse::NotForFiles(program, word) => {
                let options = program.file_options();
                write!(
                    f,
                    "\"{word}\" is no option of a first line; expected {options}"
                )
            }
            Misuse::NotText(program) => {
                let options = program.file_options();
                write!(f, "the line is not UTF-8 text; expected {options}")
            }
            Misuse::OutOfMemory => write!(f, "out of memory"),
        }
    }
}
