// The page that is printed: for each input a heading, and a line for each call or run of calls.
ghost use Rattle.std.specs.Prelude.{◌≡◌, ◌≤◌, length, take, drop};

use crate::game::outcomes;
use crate::options::{Choices, Settings, first_line};
use crate::program::Program;
use crate::step::{Step, puts, steps};
use crate::store::{Make, Store};
use crate::tally::{Game, Tally};
use crate::teller::Teller;
use filing::Outcome;
use span::{Binary, Measure, Millionths, Scale};
use std::alloc::Global;
use std::io::{BufRead, BufReader, Read};
use std::{fs, io};
use wording::grouped;

#[derive(Drop)]
pub struct Page<'a> {
    rt: &'a HostRuntime,
    settings: &'a Settings,
    tally: Tally,
}

impl<'a> Page<'a> {
    pub(crate) fn new(rt: &'a HostRuntime, settings: &'a Settings) -> Page<'a> {
        Page {
            rt,
            settings,
            tally: Tally::new(),
        }
    }

    // Answers the calls of standard input.
    pub(crate) fn standard_input(&mut self) -> io::Result<()> {
        let read = lines(self.rt.alloc(), self.rt.stdin());
        self.input("standard input", read)
    }

    // Answers the calls of a file.
    pub(crate) fn file(&mut self, path: &str) -> io::Result<()> {
        let read = read_file(self.rt, path);
        self.input(path, read)
    }

    fn input(&mut self, name: &str, read: io::Result<Vec<Vec<u8>>>) -> io::Result<()> {
        match read {
            Ok(lines) => self.lines(name, lines.as_slice()),
            Err(error) => {
                self.tally.clean = false;
                eprintln!(self.rt;
                    "worth: {name} cannot be read ({error}); expected a file of calls"
                )
            }
        }
    }

    fn lines(&mut self, name: &str, lines: &[Vec<u8>]) -> io::Result<()> {
        let given = match lines.first() {
            Some(line) => first_line(self.rt.alloc(), self.settings.program, line.as_slice()),
            None => Ok(Choices::none()),
        };
        match given {
            Ok(given) => {
                let game = self.chosen(name, given, lines)?;
                self.tally.close(game);
                Ok(())
            }
            Err(misuse) => {
                self.tally.clean = false;
                eprintln!(self.rt; "worth: {name}, line 1: {misuse}")
            }
        }
    }

    // The scale and the source that were chosen, by the command line before the input's own.
    fn chosen(&mut self, name: &str, given: Choices, lines: &[Vec<u8>]) -> io::Result<Game> {
        let measure = self.settings.choices.measure.or(given.measure);
        let measure = measure.unwrap_or(Measure::Millionths);
        let store = self.settings.choices.store.or(given.store);
        let store = store.unwrap_or(Store::ample(Make::Grid));
        if !self.settings.answers {
            self.heading(name, measure, store)?;
        }
        match measure {
            Measure::Millionths => self.calls::<Millionths, Binary>(store, lines),
            Measure::Binary => self.calls::<Binary, Millionths>(store, lines),
        }
    }

    fn heading(&self, name: &str, measure: Measure, store: Store) -> io::Result<()> {
        match self.settings.program {
            Program::Rows => println!(self.rt; "{name}: {measure}"),
            Program::Games => {
                let source = store.make;
                println!(self.rt; "{name}: {measure}, {source}")
            }
        }
    }

    // T is the docket's scale, F the other one.
    fn calls<T: Scale + Drop, F: Scale>(
        &mut self,
        store: Store,
        lines: &[Vec<u8>],
    ) -> io::Result<Game> {
        match self.settings.program {
            Program::Rows => self.line_by_line::<T>(lines),
            Program::Games => self.at_once::<T, F>(store, lines),
        }
    }

    // No call about rows asks of a docket: each line is told before the next is read, and nothing of
    // it is kept.
    fn line_by_line<T: Scale>(&mut self, lines: &[Vec<u8>]) -> io::Result<Game> {
        let mut teller = Teller::new(self.rt, self.settings.answers);
        for line in lines {
            let step = Step::of(self.rt.alloc(), Program::Rows, line.as_slice())?;
            teller.next_line(line.as_slice());
            self.tell::<T>(&mut teller, &step)?;
        }
        teller.end()
    }

    // A game's calls make one run, on a new docket.
    fn at_once<T: Scale + Drop, F: Scale>(
        &mut self,
        store: Store,
        lines: &[Vec<u8>],
    ) -> io::Result<Game> {
        let heap = self.rt.alloc();
        let steps = steps(heap, Program::Games, lines)?;
        let puts = puts(heap, steps.as_slice())?;
        let outcomes = outcomes::<T, F>(heap, store, puts.as_slice())?;
        let mut left = outcomes.as_slice();
        let mut teller = Teller::new(self.rt, self.settings.answers);
        for (line, step) in lines.iter().zip(steps.as_slice()) {
            teller.next_line(line.as_slice());
            match step {
                Step::Put(posed) => {
                    let (here, others) = parted(left, posed.count());
                    teller.put(posed, here)?;
                    left = others;
                }
                _ => self.tell::<T>(&mut teller, step)?,
            }
        }
        teller.end()
    }

    // Tells a step that puts nothing to a run.
    fn tell<T: Scale>(&mut self, teller: &mut Teller<'_>, step: &Step) -> io::Result<()> {
        match step {
            Step::NoCall | Step::Put(_) => Ok(()),
            Step::Bad(what) => teller.bad(what.as_str()),
            Step::Pure(call) => {
                let found = call.answer::<T>();
                self.tally.count(&found);
                teller.pure(&found)
            }
        }
    }

    // The last lines, where rows were looked at, and where games were done of several files; whether
    // everything asked for was done.
    pub(crate) fn end(&self) -> io::Result<bool> {
        if !self.settings.answers {
            self.rows()?;
            self.games()?;
        }
        Ok(self.tally.clean)
    }

    fn rows(&self) -> io::Result<()> {
        let rows = self.tally.rows;
        if rows.looked_at == 0 {
            return Ok(());
        }
        let count = grouped(self.rt.alloc(), rows.looked_at)?;
        let moved = grouped(self.rt.alloc(), rows.moved)?;
        let noun = if rows.looked_at == 1 { "row" } else { "rows" };
        println!(self.rt; "{count} {noun} looked at, {moved} had moved")
    }

    fn games(&self) -> io::Result<()> {
        if self.settings.files.len() <= 1 || self.tally.games == 0 {
            return Ok(());
        }
        let tables = grouped(self.rt.alloc(), self.tally.tables)?;
        let refused = grouped(self.rt.alloc(), self.tally.refused)?;
        let have = if self.tally.tables == 1 {
            "game has"
        } else {
            "games have"
        };
        let were = if self.tally.refused == 1 {
            "was"
        } else {
            "were"
        };
        println!(self.rt; "{tables} {have} a table, {refused} {were} turned down")
    }
}

// So many outcomes and the others; none and all where there are fewer.
fn parted(outcomes: &[Outcome], count: usize) -> (&[Outcome], &[Outcome])
    ensures { count ≤ length outcomes.now → (result.0.now ≡ take count outcomes.now) × (result.1.now ≡ drop count outcomes.now) }
{
    if count <= outcomes.len() {
        outcomes.split_at(count)
    } else {
        outcomes.split_at(0)
    }
}

fn read_file(rt: &HostRuntime, path: &str) -> io::Result<Vec<Vec<u8>>> {
    lines(rt.alloc(), fs::open(rt, path)?)
}

fn lines<R: Read + Drop>(heap: Global, source: R) -> io::Result<Vec<Vec<u8>>> {
    BufReader::new(heap, source)?
        .split(heap, b'\n')
        .try_collect(heap)
}
