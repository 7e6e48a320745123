//! A script, line after line, and who takes its rounds.
use crate::failure::{Failure, wrong};
use script::{Reader, Round, Setup};
use std::alloc::Global;
use std::io::BufRead;

/// Whoever takes the rounds of a script.
pub(crate) trait Takes {
    /// A round of the script of this cluster.
    fn take(&mut self, setup: &Setup, round: Round) -> Result<(), Failure>;

    /// The script has no more rounds.
    fn finish(&mut self, setup: &Setup) -> Result<(), Failure>;
}

// Takes them and does nothing.
#[derive(Clone, Copy)]
struct Checks;

impl Takes for Checks {
    fn take(&mut self, _setup: &Setup, _round: Round) -> Result<(), Failure> {
        Ok(())
    }

    fn finish(&mut self, _setup: &Setup) -> Result<(), Failure> {
        Ok(())
    }
}

// Whether a script is right to its end.
pub(crate) fn check<B: BufRead + Drop>(heap: Global, script: B) -> Result<(), Failure> {
    read(heap, script, &mut Checks)
}

// Reads a script, and hands on each of its rounds.
pub(crate) fn read<B: BufRead + Drop, T: Takes>(
    heap: Global,
    script: B,
    to: &mut T,
) -> Result<(), Failure> {
    let mut reader = Reader::new(heap);
    for line in script.lines(heap) {
        let line = line.map_err(Failure::Unread)?;
        read_line(heap, &mut reader, line.as_str(), to)?;
    }
    read_end(heap, &mut reader, to)
}

fn read_line<T: Takes>(
    heap: Global,
    reader: &mut Reader,
    line: &str,
    to: &mut T,
) -> Result<(), Failure> {
    match reader.line(line) {
        Ok(None) => Ok(()),
        Ok(Some(round)) => hand_on(reader, round, to),
        Err(fault) => Err(wrong(heap, fault)),
    }
}

fn read_end<T: Takes>(heap: Global, reader: &mut Reader, to: &mut T) -> Result<(), Failure> {
    match reader.end() {
        Ok(None) => {}
        Ok(Some(round)) => hand_on(reader, round, to)?,
        Err(fault) => return Err(wrong(heap, fault)),
    }
    match reader.setup() {
        Some(setup) => to.finish(setup),
        None => Ok(()),
    }
}

// Hands on a round that has ended.
fn hand_on<T: Takes>(reader: &Reader, round: Round, to: &mut T) -> Result<(), Failure> {
    match reader.setup() {
        Some(setup) => to.take(setup, round),
        None => Ok(()),
    }
}
