// A program's run: its options, its inputs, and whether all was done.
use crate::options::Settings;
use crate::page::Page;
use crate::program::Program;
use std::process::ExitCode;
use std::{env, io};

pub fn run(rt: &HostRuntime, program: Program) -> ExitCode {
    match done(rt, program) {
        Ok(true) => ExitCode::SUCCESS,
        Ok(false) => ExitCode::FAILURE,
        Err(error) => {
            let _ = eprintln!(rt; "worth: {error}");
            ExitCode::FAILURE
        }
    }
}

// Whether everything asked for was done.
fn done(rt: &HostRuntime, program: Program) -> io::Result<bool> {
    let Ok(words) = env::args(rt) else {
        eprintln!(rt; "worth: the command line cannot be read; expected UTF-8 text")?;
        return Ok(false);
    };
    match Settings::read(rt.alloc(), program, words) {
        Ok(settings) if settings.help => {
            rt.print(program.help())?;
            Ok(true)
        }
        Ok(settings) => inputs(rt, &settings),
        Err(misuse) => {
            eprintln!(rt; "worth: {misuse}")?;
            Ok(false)
        }
    }
}

fn inputs(rt: &HostRuntime, settings: &Settings) -> io::Result<bool> {
    let mut page = Page::new(rt, settings);
    if settings.files.is_empty() {
        page.standard_input()?;
    }
    for file in settings.files.iter() {
        page.file(file.as_str())?;
    }
    page.end()
}
