//! How far a script has been read, line after line: first the cluster, its timing and its nodes, then round after round.
ghost use Rattle.std.specs.Prelude.{◌≡◌, Some, None, Option, MatchOption, IfOk, IfErr};
ghost use Rattle.script.specs.Reading.{next_line, Took, NotTaken, TookAny, Unread, Says, Read, Ended, NotEnded, setup_of, FaultOfLine, FaultOfEnd};
ghost use Rattle.script.specs.declared.reader.Stage.TheVariants as stages;
ghost use Rattle.script.specs.declared.entry.Entry.{Entry};

use crate::entry;
use crate::entry::Entry;
use crate::naming::{Naming, configured, timed};
use crate::reason::{Fault, Lines, Misfit, Untaken};
use crate::round::Round;
use crate::running::Running;
use crate::setup::Setup;
use clock::Cluster;
use std::alloc::Global;

/// How far a script has been read. Of its rounds it holds the one under way, and no other.
#[derive(Drop)]
pub struct Reader {
    heap: Global,
    lines: u64,
    stage: Stage,
}

// What of a script has been read.
#[derive(Drop)]
enum Stage {
    Start,
    Configured(Cluster),
    Naming(Naming),
    Running(Running),
}

impl Reader {
    /// Nothing has been read yet.
    pub fn new(heap: Global) -> Reader
        ensures lines { result.lines ≡ 0 }
        ensures stage { result.stage ≡ stages.Start }
    {
        Reader {
            heap,
            lines: 0,
            stage: Stage::Start,
        }
    }

    /// The next line of the script. A round, if one ends with it, as it does where a further one begins. After an error the
    /// script is over.
    pub fn line<'a>(&mut self, text: &'a str) -> Result<Option<Round>, Fault<'a>>
        ensures lines { self.new.lines ≡ next_line self.old }
        ensures ok { IfOk result (Read text.now self.old self.new) }
        ensures err { IfErr result (FaultOfLine text.now self.old) }
    {
        self.lines = self.lines.saturating_add(1);
        // A match, and no `map_err`: a call would copy the answer, which has room for a round, once more for each line.
        match self.read(text) {
            Ok(round) => Ok(round),
            Err(untaken) => Err(untaken.at(self.lines)),
        }
    }

    fn read<'a>(&mut self, text: &'a str) -> Result<Option<Round>, Untaken<'a>>
        ensures ok { IfOk result (λ round. (line : Option Entry) × Says text.now line × TookAny self.old.stage line self.new.stage round) }
        ensures err { IfErr result (Unread text.now self.old.stage) }
        ensures lines { self.new.lines ≡ self.old.lines }
    {
        match entry::parse(self.heap, text)? {
            None => Ok(None),
            Some(entry) => self.stage.take(self.heap, entry),
        }
    }

    /// The script is over. The round under way, if there is one, ends too. What is missing is reported at the line after the last.
    pub fn end(&mut self) -> Result<Option<Round>, Fault<'static>>
        ensures ok { IfOk result (Ended self.old.stage self.new.stage) }
        ensures err { IfErr result (FaultOfEnd self.old) }
        ensures lines { self.new.lines ≡ self.old.lines }
    {
        let line = self.lines.saturating_add(1);
        self.stage
            .end(self.heap)
            .map_err(|misfit| Untaken::from(misfit).at(line))
    }

    /// The cluster and its nodes, once all of them are named.
    pub fn setup(&self) -> Option<&Setup>
        ensures { MatchOption result (setup_of self.now.stage ≡ None) (λ setup. setup_of self.now.stage ≡ Some setup.now) }
    {
        self.stage.setup()
    }
}

impl Stage {
    // A match, and no table of steps: each stage holds something else.
    fn take(&mut self, heap: Global, entry: Entry) -> Result<Option<Round>, Untaken<'static>>
        ensures ok { IfOk result (Took self.old entry self.new) }
        ensures err { IfErr result (NotTaken self.old entry) }
    {
        match self {
            Stage::Start => *self = Stage::Configured(configured(&entry)?),
            Stage::Configured(cluster) => *self = Stage::Naming(timed(*cluster, &entry)?),
            Stage::Naming(naming) => {
                if let Entry::Round = entry {
                    *self = Stage::Running(naming.begin(heap)?);
                } else {
                    naming.take(&entry)?;
                }
            }
            Stage::Running(running) => return running.take(heap, entry),
        }
        Ok(None)
    }

    // The script is over: the round under way ends too.
    fn end(&mut self, heap: Global) -> Result<Option<Round>, Misfit>
        ensures ok { IfOk result (Ended self.old self.new) }
        ensures err { IfErr result (NotEnded self.old) }
    {
        match self {
            Stage::Start => Err(Misfit::Expected(Lines::Cluster)),
            Stage::Configured(_) => Err(Misfit::Expected(Lines::Timing)),
            Stage::Naming(naming) => {
                naming.complete()?;
                Ok(None)
            }
            Stage::Running(running) => Ok(Some(running.next(heap))),
        }
    }

    fn setup(&self) -> Option<&Setup>
        ensures { MatchOption result (setup_of self.now ≡ None) (λ setup. setup_of self.now ≡ Some setup.now) }
    {
        match self {
            Stage::Naming(naming) if naming.complete().is_ok() => Some(&naming.setup),
            Stage::Running(running) => Some(&running.setup),
            _ => None,
        }
    }
}
