// Prints what was done, call by call. For people, posts in a row make one line, and so do narrowings.
use crate::accepted;
use crate::posed::Posed;
use crate::replied::replies;
use crate::tally::{Game, refused};
use asking::Asked;
use filing::Outcome;
use law::Reply;
use script::Answer;
use span::Fault;
use std::str::from_utf8;
use std::{io, mem};

#[derive(Clone, Copy)]
pub struct Teller<'a> {
    rt: &'a HostRuntime,
    answers: bool,
    // the line that is told, by its number, from 1 on
    line: &'a [u8],
    number: usize,
    // accepted, and not yet told
    posts: i64,
    narrowings: i64,
    game: Game,
}

impl<'a> Teller<'a> {
    pub(crate) fn new(rt: &'a HostRuntime, answers: bool) -> Teller<'a> {
        Teller {
            rt,
            answers,
            line: b"",
            number: 0,
            posts: 0,
            narrowings: 0,
            game: Game::new(),
        }
    }

    pub(crate) fn next_line(&mut self, line: &'a [u8]) {
        self.line = line;
        self.number = self.number.saturating_add(1);
    }

    pub(crate) fn bad(&mut self, what: &str) -> io::Result<()> {
        self.game.clean = false;
        let number = self.number;
        if self.answers {
            println!(self.rt; "bad {number} {what}")
        } else {
            self.rest()?;
            println!(self.rt; "  line {number}: {what}")
        }
    }

    pub(crate) fn pure(&mut self, found: &Result<Answer, Fault>) -> io::Result<()> {
        if found.is_err() {
            self.game.clean = false;
        }
        let heap = self.rt.alloc();
        if self.answers {
            self.rt.println(wording::bare(heap, found)?)
        } else {
            self.rest()?;
            self.told(wording::told(heap, found)?.as_str())
        }
    }

    // What was put to the run came to these outcomes.
    pub(crate) fn put(&mut self, posed: &Posed, outcomes: &[Outcome]) -> io::Result<()> {
        match posed {
            Posed::Game(asked) => {
                let replies = replies(self.rt.alloc(), outcomes)?;
                self.asked(asked, replies.as_slice())
            }
            _ => Ok(()),
        }
    }

    // What an ask came to: one reply, or for a table one for each row.
    fn asked(&mut self, asked: &Asked, replies: &[Reply]) -> io::Result<()> {
        let Some(first) = replies.first() else {
            return Ok(());
        };
        self.game.count(asked, first);
        if self.answers {
            bare_ask(self.rt, asked, replies)
        } else if refused(first) {
            self.rest()?;
            self.told(telling::told(self.rt.alloc(), first)?.as_str())
        } else {
            self.accepted(asked, replies)
        }
    }

    fn accepted(&mut self, asked: &Asked, replies: &[Reply]) -> io::Result<()> {
        match asked {
            Asked::Post { .. } => {
                self.narrowed()?;
                self.posts = self.posts.saturating_add(1);
                Ok(())
            }
            Asked::Narrow => {
                self.posted()?;
                self.narrowings = self.narrowings.saturating_add(1);
                Ok(())
            }
            _ => {
                self.rest()?;
                accepted::tell(self.rt, asked, replies)
            }
        }
    }

    // The line with its words and what it came to.
    fn told(&self, what: &str) -> io::Result<()> {
        let number = self.number;
        match from_utf8(self.line) {
            Ok(text) => {
                let words = text.trim();
                println!(self.rt; "  line {number}, {words}: {what}")
            }
            Err(_) => println!(self.rt; "  line {number}: {what}"),
        }
    }

    // Tells what is not yet told.
    fn rest(&mut self) -> io::Result<()> {
        self.posted()?;
        self.narrowed()
    }

    fn posted(&mut self) -> io::Result<()> {
        match mem::take(&mut self.posts) {
            0 => Ok(()),
            1 => println!(self.rt; "  1 coefficient posted"),
            posts => println!(self.rt; "  {posts} coefficients posted"),
        }
    }

    fn narrowed(&mut self) -> io::Result<()> {
        match mem::take(&mut self.narrowings) {
            0 => Ok(()),
            1 => println!(self.rt; "  narrowed once"),
            narrowings => println!(self.rt; "  narrowed {narrowings} times"),
        }
    }

    pub(crate) fn end(&mut self) -> io::Result<Game> {
        self.rest()?;
        Ok(self.game)
    }
}

fn bare_ask(rt: &HostRuntime, asked: &Asked, replies: &[Reply]) -> io::Result<()> {
    match (asked, replies) {
        (Asked::Table, _) => rt.println(telling::bare_table(rt.alloc(), replies)?),
        (_, [reply, ..]) => rt.println(telling::bare(rt.alloc(), reply)?),
        (_, []) => Ok(()),
    }
}
