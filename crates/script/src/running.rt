//! The lines of rounds.
ghost use Rattle.std.specs.Prelude.{◌≡◌, ◌<◌, ◌++◌, ◌∷◌, Some, None, IfOk, IfErr};
ghost use Rattle.midpoint.specs.Refusals.{ByRows, first_applying};
ghost use Rattle.frame.specs.Layout.{frame_of};
ghost use Rattle.script.specs.Running.{Begun, NextBegun, bytes_said, unsayable, Said, no_jitter, Jittered, no_drift, Drifted, no_value, Valued, misfits, Took};
ghost use Rattle.script.specs.Reading.{OrMemory};

use crate::entry::{Content, Entry};
use crate::reason::{Lines, Misfit, Untaken};
use crate::round::{Message, Round};
use crate::setup::Setup;
use frame::Turn;
use std::alloc::{AllocError, Global};
use std::mem;

// A cluster that runs: which round is under way, counted from 0, and what the script has said of it so far.
#[derive(Drop)]
pub(crate) struct Running {
    pub(crate) setup: Setup,
    pub(crate) number: u64,
    pub(crate) round: Round,
}

impl Running {
    // The first round begins.
    pub(crate) fn new(heap: Global, setup: Setup) -> Running
        ensures { Begun setup result }
    {
        Running {
            setup,
            number: 0,
            round: Round::new(heap),
        }
    }

    // The round under way ends, and the next one begins. Rounds count up to 2^64 - 1.
    pub(crate) fn next(&mut self, heap: Global) -> Round
        ensures round { result ≡ self.old.round }
        ensures next { NextBegun self.old self.new }
    {
        self.number = self.number.saturating_add(1);
        mem::replace(&mut self.round, Round::new(heap))
    }

    // A line of the round under way, or one that ends it.
    pub(crate) fn take(
        &mut self,
        heap: Global,
        entry: Entry,
    ) -> Result<Option<Round>, Untaken<'static>>
        ensures ok { IfOk result (λ round. (first_applying (misfits self.old entry) ≡ None) × Took self.old entry self.new round) }
        ensures err { IfErr result (OrMemory (misfits self.old entry)) }
    {
        match entry {
            Entry::Round => return Ok(Some(self.next(heap))),
            Entry::Says {
                from,
                to,
                reading,
                content,
            } => self.says(heap, from, to, reading, content)?,
            Entry::Jitter { node, of, by } => self.jitter(node, of, by)?,
            Entry::Drift { node, by } => self.drift(node, by)?,
            Entry::Value { node, next } => self.value(node, next)?,
            _ => return Err(Misfit::Expected(Lines::Rounds).into()),
        }
        Ok(None)
    }

    fn says(
        &mut self,
        heap: Global,
        from: u64,
        to: u64,
        reading: u64,
        content: Content,
    ) -> Result<(), Untaken<'static>>
        ensures ok { IfOk result (λ _. (first_applying (unsayable self.old from to) ≡ None) × Said self.old from to reading content self.new) }
        ensures err { IfErr result (OrMemory (unsayable self.old from to)) }
    {
        let q = self.setup.bad(from)?;
        let p = self.setup.good(to)?;
        let bytes = self.bytes(heap, q, content)?;
        let message = Message {
            from: q,
            to: p,
            reading,
            bytes,
        };
        self.round.add_message(message)?;
        Ok(())
    }

    // The bytes of a message: those that are given, or those of a frame of its sender in this round.
    fn bytes(&self, heap: Global, sender: usize, content: Content) -> Result<Vec<u8>, AllocError>
        requires { sender < 16 }
        ensures { IfOk result (λ bytes. bytes.items ≡ bytes_said self.now sender content) }
    {
        match content {
            Content::Bytes(bytes) => Ok(bytes),
            Content::Values(values) => {
                let turn = Turn {
                    cluster: self.setup.schedule.cluster,
                    sender: sender as u8,
                    round: self.number,
                };
                frame_of(heap, &turn, values.as_slice())
            }
        }
    }

    fn jitter(&mut self, node: u64, of: u64, by: i64) -> Result<(), Misfit>
        ensures { ByRows (no_jitter self.old node of by) (λ e. e) (λ _. Jittered self.old node of by self.new) result }
    {
        let p = self.setup.good(node)?;
        let q = self.setup.good(of)?;
        if p == q {
            return Err(Misfit::OwnClock { node });
        }
        let most = self.setup.schedule.cluster.error();
        if by.unsigned_abs() > most {
            return Err(Misfit::JitterPast { most });
        }
        if self.round.given.jitter[p][q].is_some() {
            return Err(Misfit::JitterTwice { node, of });
        }
        self.round.given.set_jitter(p, q, by);
        Ok(())
    }

    fn drift(&mut self, node: u64, by: i64) -> Result<(), Misfit>
        ensures { ByRows (no_drift self.old node by) (λ e. e) (λ _. Drifted self.old node by self.new) result }
    {
        let p = self.setup.good(node)?;
        let most = self.setup.schedule.cluster.drift();
        if by.unsigned_abs() > most {
            return Err(Misfit::DriftPast { most });
        }
        if self.round.given.drift[p].is_some() {
            return Err(Misfit::DriftTwice { node });
        }
        self.round.given.set_drift(p, by);
        Ok(())
    }

    fn value(&mut self, node: u64, next: u32) -> Result<(), Misfit>
        ensures { ByRows (no_value self.old node) (λ e. e) (λ _. Valued self.old node next self.new) result }
    {
        let p = self.setup.good(node)?;
        if self.round.given.next[p].is_some() {
            return Err(Misfit::ValueTwice { node });
        }
        self.round.given.set_next(p, next);
        Ok(())
    }
}

// The frame of a turn with these values, which may be more or fewer than its round asks.
fn frame_of(heap: Global, turn: &Turn, values: &[u32]) -> Result<Vec<u8>, AllocError>
    ensures { IfOk result (λ bytes. bytes.items ≡ frame_of turn.now values.now) }
{
    let mut bytes = Vec::new(heap);
    bytes.extend_from_slice(&turn.header())?;
    for value in values {
        bytes.extend_from_slice(&value.to_le_bytes())?;
    }
    Ok(bytes)
}
