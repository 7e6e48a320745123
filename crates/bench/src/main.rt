//! `bench`: plays a script of a cluster, prints each round, and draws a picture of it if it is asked to.
//!
//! - `words`: what the words of the command line ask for.
//! - `failure`: why a script is not played to its end.
//! - `reading`: a script, line after line, and who takes its rounds.
//! - `stage`: the rounds are played and printed.
//! - `show`: the lines of a round.
//! - `history`, `picture`, `clocks_panel`, `readings_panel`, `results_panel`, `svg`: the picture.

#![tactic(auto)]

mod clocks_panel;
mod failure;
mod history;
mod picture;
mod reading;
mod readings_panel;
mod results_panel;
mod show;
mod stage;
mod svg;
mod words;

use crate::failure::Failure;
use crate::history::History;
use crate::words::{Command, Wish};
use std::alloc::Global;
use std::fmt::Display;
use std::fs::File;
use std::io::{BufRead, BufReader, BufWriter, Read};
use std::os::unix::fs::MetadataExt;
use std::process::ExitCode;
use std::{env, fs, io};

const USAGE: &str = "usage: bench [--plot OUT.svg] [FILE]";

const HELP: &str = "usage: bench [--plot OUT.svg] [FILE]
Plays a script of a cluster, of FILE or of standard input, and prints each round.
  --plot OUT.svg   draws a picture of its first 400 rounds, too
  --help           prints this
Of a script that is wrong anywhere it prints 'line N: reason', on standard error, and ends with status 1.";

fn main(rt: HostRuntime) -> anyhow::Result<ExitCode> {
    let words: Vec<String> = env::args(&rt)?.skip(1).collect(rt.alloc())?;
    match words::asked_for(words.as_slice()) {
        Some(Command::Help) => {
            rt.println(HELP)?;
            Ok(ExitCode::SUCCESS)
        }
        Some(Command::Play(wish)) => fulfil(&rt, &wish),
        None => fail(&rt, USAGE),
    }
}

// Says why on standard error, and nothing else; the program ends with status 1.
fn fail(rt: &HostRuntime, why: impl Display + Drop) -> anyhow::Result<ExitCode> {
    eprintln!(rt; "{why}")?;
    Ok(ExitCode::FAILURE)
}

// Plays the script, and draws the picture, unless that would be written over the script.
fn fulfil(rt: &HostRuntime, wish: &Wish<'_>) -> anyhow::Result<ExitCode> {
    if is_over_script(rt, wish) {
        return fail(rt, USAGE);
    }
    let source = wish.file.unwrap_or("standard input");
    match play(rt, wish) {
        Ok(history) => draw(rt, wish, history.as_ref()),
        Err(Failure::Unread(error)) => {
            fail(rt, format!(in rt.alloc(); "cannot read {source}: {error}")?)
        }
        Err(Failure::Wrong(fault)) => fail(rt, fault),
        Err(Failure::Unprinted(error)) => Err(error.into()),
    }
}

// Whether the picture is to go where the script is.
fn is_over_script(rt: &HostRuntime, wish: &Wish<'_>) -> bool {
    match (wish.file, wish.picture) {
        (Some(file), Some(picture)) => is_one_file(rt, file, picture),
        _ => false,
    }
}

// Whether two names are of one file, as where one is a link to the other.
fn is_one_file(rt: &HostRuntime, one: &str, other: &str) -> bool {
    match (fs::metadata(rt, one), fs::metadata(rt, other)) {
        (Ok(one), Ok(other)) => one.dev() == other.dev() && one.ino() == other.ino(),
        _ => false,
    }
}

// Plays the script of a file or of standard input. The answer is what a picture shows of it.
fn play(rt: &HostRuntime, wish: &Wish<'_>) -> Result<Option<History>, Failure> {
    let Some(path) = wish.file else {
        return play_once_read(rt, wish, rt.reader());
    };
    let metadata = fs::metadata(rt, path).map_err(Failure::Unread)?;
    if !metadata.is_file() {
        return play_once_read(rt, wish, opened(rt, path)?);
    }
    reading::check(rt.alloc(), opened(rt, path)?)?;
    play_checked(rt, wish, opened(rt, path)?)
}

// Plays a script that can be read only once, as that of a pipe: its text is kept.
fn play_once_read<R: Read + Drop>(
    rt: &HostRuntime,
    wish: &Wish<'_>,
    mut script: R,
) -> Result<Option<History>, Failure> {
    let mut text = Vec::new(rt.alloc());
    script.read_to_end(&mut text).map_err(Failure::Unread)?;
    reading::check(rt.alloc(), text.as_slice())?;
    play_checked(rt, wish, text.as_slice())
}

// Plays a script that was checked.
fn play_checked<B: BufRead + Drop>(
    rt: &HostRuntime,
    wish: &Wish<'_>,
    script: B,
) -> Result<Option<History>, Failure> {
    let out = BufWriter::new(rt.alloc(), io::writer(rt))?;
    stage::play(rt.alloc(), script, out, wish.picture.is_some())
}

// A file, to be read from its start.
fn opened(rt: &HostRuntime, path: &str) -> Result<BufReader<File>, Failure> {
    let file = File::open(rt, path).map_err(Failure::Unread)?;
    BufReader::new(rt.alloc(), file).map_err(Failure::Unread)
}

// Draws the picture, if one is wished for.
fn draw(rt: &HostRuntime, wish: &Wish<'_>, history: Option<&History>) -> anyhow::Result<ExitCode> {
    let (Some(path), Some(history)) = (wish.picture, history) else {
        return Ok(ExitCode::SUCCESS);
    };
    let svg = picture::picture(rt.alloc(), history)?;
    match fs::write(rt, path, svg.as_str()) {
        Ok(()) => Ok(ExitCode::SUCCESS),
        Err(error) => fail(rt, format!(in rt.alloc(); "cannot write {path}: {error}")?),
    }
}
