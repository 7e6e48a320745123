//! The rounds of a script are played and printed.
use crate::failure::Failure;
use crate::history::History;
use crate::reading::Takes;
use crate::{reading, show};
use cluster::{Bus, Watch};
use script::{Round, Setup};
use std::alloc::Global;
use std::io;
use std::io::{BufRead, Write};

// As many rounds are played at a time.
const BATCH: usize = 64;

// Plays a script that was checked, and prints its rounds. The answer is what a picture shows of them, if one is wished for.
pub(crate) fn play<B: BufRead + Drop, W: Write + Drop>(
    heap: Global,
    script: B,
    out: W,
    pictured: bool,
) -> Result<Option<History>, Failure> {
    let mut stage = Stage {
        heap,
        bus: None,
        waiting: Vec::with_capacity(heap, BATCH)?,
        audience: Audience {
            out,
            pictured,
            history: None,
        },
    };
    match reading::read(heap, script, &mut stage) {
        Ok(()) => stage.end(),
        // What waits is not played again: nothing more can be printed, or memory is wanting.
        Err(Failure::Unprinted(error)) => Err(Failure::Unprinted(error)),
        // The script has changed since it was checked: the rounds that ended before what is wrong are played all the same.
        Err(failure) => {
            let _history = stage.end()?;
            Err(failure)
        }
    }
}

// The cluster, once its nodes are known, and the rounds that it has still to play.
#[derive(Drop)]
struct Stage<W: Write + Drop> {
    heap: Global,
    bus: Option<Bus>,
    waiting: Vec<Round>,
    audience: Audience<W>,
}

// Whoever looks on: where the rounds are printed, and what a picture shows of them, if one is wished for.
#[derive(Drop)]
struct Audience<W: Write + Drop> {
    out: W,
    pictured: bool,
    history: Option<History>,
}

impl<W: Write + Drop> Takes for Stage<W> {
    fn take(&mut self, setup: &Setup, round: Round) -> Result<(), Failure> {
        self.begin(setup)?;
        self.waiting.push(round)?;
        if self.waiting.len() >= BATCH {
            self.play_waiting()?;
        }
        Ok(())
    }

    fn finish(&mut self, setup: &Setup) -> Result<(), Failure> {
        self.begin(setup)
    }
}

impl<W: Write + Drop> Stage<W> {
    // Before the first round the cluster is made; later it is there.
    fn begin(&mut self, setup: &Setup) -> Result<(), Failure> {
        match self.bus {
            Some(_) => Ok(()),
            None => self.enter(setup),
        }
    }

    // The cluster is made. Apart from `begin`, which each round calls: a function clears its locals when it is called, and a cluster
    // is large.
    #[cold]
    #[inline(never)]
    fn enter(&mut self, setup: &Setup) -> Result<(), Failure> {
        let bus = Bus::new(self.heap, setup)?;
        self.audience.begin(self.heap, setup, &bus)?;
        self.bus = Some(bus);
        Ok(())
    }

    // The script is over: what waits is played.
    fn end(mut self) -> Result<Option<History>, Failure> {
        self.play_waiting()?;
        let Stage { audience, .. } = self;
        audience.end()
    }

    // Plays all rounds that wait.
    fn play_waiting(&mut self) -> Result<(), Failure> {
        if let Some(bus) = &mut self.bus {
            bus.play_all(self.waiting.as_slice(), &mut self.audience)?;
        }
        self.waiting.clear();
        Ok(())
    }
}

impl<W: Write + Drop> Audience<W> {
    // The play begins.
    fn begin(&mut self, heap: Global, setup: &Setup, bus: &Bus) -> Result<(), Failure> {
        if self.pictured {
            self.history = Some(History::new(heap, setup.schedule.cluster, bus)?);
        }
        Ok(())
    }

    // The play is over.
    fn end(self) -> Result<Option<History>, Failure> {
        let Audience {
            mut out,
            history,
            ..
        } = self;
        out.flush()?;
        Ok(history)
    }
}

impl<W: Write + Drop> Watch for Audience<W> {
    type Error = io::Error;

    ghost sees = { λ _ _ _ _ _. Unit {0} };

    fn played(&mut self, bus: &Bus, _round: &Round) -> io::Result<()> {
        show::write_round(&mut self.out, bus)?;
        if let Some(history) = &mut self.history {
            history.note(bus)?;
        }
        Ok(())
    }
}
