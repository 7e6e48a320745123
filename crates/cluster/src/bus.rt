//! The cluster on its bus, round after round.
ghost use Rattle.std.specs.Prelude.{◌≡◌, ◌≢◌, ◌<◌, pos, ◌-ℤ◌, IfOk, IfErr, MatchOption, Bool, is_ok, take, Some, None, EachIndex, length, slice_index_or, slice_set};
ghost use Rattle.std.specs.Option.{option_map};
ghost use Rattle.node.specs.Events.{bytes_of, bytes_heard};
ghost use Rattle.relay.specs.Theorems.{turn_in};
ghost use Rattle.script.specs.Rounds.{only_message, jitter_of};
ghost use Rattle.cluster.specs.Playing.{StartsAs, Begins, has_ended_cycle, of_frame, of_script, slot_heard, player, is_last, OthersHear, SameBus, SendsAs, HearsAs, EndsAs, SlotOver, RoundOver, Plays};
ghost use Rattle.cluster.specs.Standing.{InStep, KeepsInStep, AllSeen, SomeSeen};
ghost use Rattle.script.specs.declared.round.Round.{Round};
ghost use Rattle.cluster.specs.declared.bus.Bus.{Bus};
ghost use Rattle.cluster.specs.declared.bus.Player.TheVariants as player;

use crate::station::Station;
use clock::{deviation, reading};
use frame::{MAX_FRAME_LENGTH, Turn};
use midpoint::MAX_NODES;
use schedule::{Received, Schedule};
use script::{Given, Message, Round, Setup, Starting};
use std::alloc::{AllocError, Global};

/// A node of the cluster: a bad one, of which the script says what it does, or a good one.
#[derive(Drop)]
pub(crate) enum Player {
    Bad,
    Good(Station),
}

/// Whoever looks at a cluster behind each round that it plays.
pub trait Watch {
    type Error;

    /// What that one makes of a round, with the cluster as it is behind it, and whether more is wanted.
    ghost sees: { Self → Bus → Round → Bool → Self → Type 0 };

    /// The round has been played; an error ends the play.
    fn played(&mut self, bus: &Bus, round: &Round) -> Result<(), Self::Error>
        ensures { sees self.old bus.now round.now (is_ok result) self.new };
}

/// What a slot's node sends: a bad one what the script says; a good one a frame of this length, when its clock shows this time, or
/// nothing.
#[derive(Clone, Copy)]
pub(crate) enum Sent {
    ByScript,
    Nothing,
    Frame { time: u64, length: usize },
}

/// The nodes on the bus, at the end of a round by their clocks: which round that is, common time, which no node knows, and
/// memory for a frame.
#[derive(Drop)]
pub struct Bus {
    pub(crate) schedule: Schedule,
    pub(crate) round: u64,
    pub(crate) common: u64,
    pub(crate) players: [Player; MAX_NODES],
    pub(crate) memory: Vec<u8>,
}

/// A slot, as the nodes hear it that are not its own.
#[derive(Clone, Copy)]
struct Slot<'a> {
    sender: u8,
    sent: Sent,
    common: u64,
    memory: &'a [u8],
    round: &'a Round,
}

impl<'a> Slot<'a> {
    // What a node hears that shows this time.
    fn heard(&self, node: usize, own: u64) -> Option<Received<&'a [u8]>>
        ensures { bytes_heard result ≡ slot_heard self.now.sent self.now.common self.now.memory.now self.now.round.now self.now.sender node own }
    {
        match self.sent {
            Sent::Nothing => None,
            Sent::Frame { time, length } => Some(self.of_frame(node, own, time, length)),
            Sent::ByScript => self.of_script(node, own),
        }
    }

    // The frame of a good node.
    fn of_frame(&self, node: usize, own: u64, time: u64, length: usize) -> Received<&'a [u8]>
        ensures { bytes_of (λ message. message.now) result ≡ of_frame time (jitter_of self.now.round.now.given node self.now.sender) own (take length self.now.memory.now) }
    {
        let jitter = self.round.given.jitter_of(node, usize::from(self.sender));
        Received {
            deviation: deviation(reading(time, jitter), own),
            message: front(self.memory, length),
        }
    }

    // The only message that the script has of a bad one.
    fn of_script(&self, node: usize, own: u64) -> Option<Received<&'a [u8]>>
        ensures { bytes_heard result ≡ option_map (of_script self.now.common own) (only_message self.now.round.now node self.now.sender) }
    {
        match self.round.only_message(node, usize::from(self.sender)) {
            Some(message) => Some(self.of_message(message, own)),
            None => None,
        }
    }

    // One message of the script.
    fn of_message(&self, message: &'a Message, own: u64) -> Received<&'a [u8]>
        ensures { bytes_of (λ bytes. bytes.now) result ≡ of_script self.now.common own message.now }
    {
        Received {
            deviation: deviation(self.common.saturating_add(message.reading), own),
            message: &message.bytes,
        }
    }
}

// The first bytes of memory.
fn front(memory: &[u8], length: usize) -> &[u8]
    ensures { result.now ≡ take length memory.now }
{
    &memory[..length.min(memory.len())]
}

impl Player {
    // Its own slot: what there is of it on the wires.
    fn send(&mut self, memory: &mut [u8]) -> Sent
        ensures { SendsAs self.old memory.old self.new memory.new result }
    {
        match self {
            Player::Bad => Sent::ByScript,
            Player::Good(station) => match station.send(memory) {
                Some(length) => Sent::Frame {
                    time: station.time,
                    length,
                },
                None => Sent::Nothing,
            },
        }
    }

    // The slot of another node is over.
    fn hear(&mut self, number: usize, slot: &Slot<'_>)
        requires { slot.now.sender < 16 }
        ensures { HearsAs slot.now.sender (slot_heard slot.now.sent slot.now.common slot.now.memory.now slot.now.round.now slot.now.sender number) self.old self.new }
    {
        if let Player::Good(station) = self {
            station.hear(slot.sender, slot.heard(number, station.time));
        }
    }

    // The round is over, for the node of this number.
    fn end(&mut self, number: usize, last: bool, span: u64, given: &Given)
        ensures { EndsAs last span given.now number self.old self.new }
    {
        if let Player::Good(station) = self {
            station.end(number, last, span, given);
        }
    }

    // A node as it starts.
    fn starting(heap: Global, setup: &Setup, number: u8) -> Result<Player, AllocError>
        requires { number < setup.now.schedule.cluster.nodes }
        ensures { IfOk result (StartsAs setup.now number) }
    {
        match setup.starting[usize::from(number)] {
            Starting::Bad => Ok(Player::Bad),
            Starting::Good { value, ahead } => Ok(Player::Good(Station::new(
                heap,
                setup.schedule,
                number,
                value,
                ahead,
            )?)),
        }
    }
}

impl Bus {
    /// The cluster at the end of its first round, which is where common time is 0: each good node's clock shows there how far it is
    /// ahead. Nothing, where memory is wanting.
    pub fn new(heap: Global, setup: &Setup) -> Result<Bus, AllocError>
        ensures begins { IfOk result (Begins setup.now) }
        ensures in_step { IfOk result InStep }
    {
        let mut players = std::array::from_fn(|_| Player::Bad);
        for number in 0..setup.schedule.cluster.nodes() as u8 {
            players[usize::from(number)] = Player::starting(heap, setup, number)?;
        }
        Ok(Bus {
            schedule: setup.schedule,
            round: 0,
            common: 0,
            players,
            memory: vec![in heap; 0; MAX_FRAME_LENGTH]?,
        })
    }

    /// A good node; nothing for a bad one, and past the cluster.
    pub fn station(&self, node: usize) -> Option<&Station>
        ensures { MatchOption result (player self.now node ≡ player.Bad) (λ station. player self.now node ≡ player.Good station.now) }
    {
        match self.players.get(node) {
            Some(Player::Good(station)) => Some(station),
            Some(Player::Bad) | None => None,
        }
    }

    /// How far a time that a clock shows is ahead of common time.
    pub fn ahead(&self, time: u64) -> i128
        ensures { result ≡ pos time -ℤ pos self.now.common }
    {
        i128::from(time) - i128::from(self.common)
    }

    /// Whether the last round that was played was the last one of its cycle.
    pub fn has_ended_cycle(&self) -> bool
        ensures { result ≡ has_ended_cycle self.now }
    {
        self.round != 0 && self.turn().place_in_cycle() == 0
    }

    /// Rounds, one after the other, as many as there are; whoever watches sees each once, with the cluster behind it. If that one wants
    /// no more, no further one is played. What `play` promises of a round holds of each of them, where the script keeps its limits in all.
    pub fn play_all<W: Watch>(&mut self, rounds: &[Round], watch: &mut W) -> Result<(), W::Error>
        ensures ok { IfOk result (λ _. AllSeen W.sees self.old rounds.now self.new watch.old watch.new) }
        ensures err { IfErr result (λ _. SomeSeen W.sees self.old rounds.now self.new watch.old watch.new) }
    {
        for round in rounds {
            self.play(round);
            watch.played(self, round)?;
        }
        Ok(())
    }

    /// One round: the slot of each node, one after the other, and the end of the round for all. Where good nodes were in step, and the
    /// script keeps its limits in the round, they are in step behind it; what their clocks were apart is halved, up to a rest, so the
    /// bound is kept; and at a cycle's end they have the same results, which are right for good nodes.
    pub fn play(&mut self, round: &Round)
        ensures plays { Plays self.old round.now self.new }
        ensures keeps { KeepsInStep self.old round.now self.new }
    {
        for sender in 0..self.schedule.cluster.nodes() as u8 {
            self.slot(sender, round);
        }
        self.end(round);
    }

    // The slot of a node.
    fn slot(&mut self, sender: u8, round: &Round)
        requires { sender < self.old.schedule.cluster.nodes }
        ensures { SlotOver self.old round.now sender self.new }
    {
        let sent = self.send(sender);
        self.others_hear(sender, sent, round);
    }

    // What there is of a node on the wires in its slot.
    fn send(&mut self, sender: u8) -> Sent
        requires { sender < 16 }
        ensures sends { SendsAs (player self.old sender) self.old.memory.items (player self.new sender) self.new.memory.items result }
        ensures players { self.new.players ≡ slice_set self.old.players sender (player self.new sender) }
        ensures schedule { self.new.schedule ≡ self.old.schedule }
        ensures round { self.new.round ≡ self.old.round }
        ensures common { self.new.common ≡ self.old.common }
        ensures room { length self.new.memory.items ≡ length self.old.memory.items }
    {
        self.players[usize::from(sender)].send(&mut self.memory)
    }

    // The slot of a node is over for all others.
    fn others_hear(&mut self, sender: u8, sent: Sent, round: &Round)
        requires { sender < 16 }
        ensures others { OthersHear self.old round.now sender sent self.new }
        ensures own { player self.new sender ≡ player self.old sender }
        ensures rest { SameBus self.old self.new }
    {
        let slot = Slot {
            sender,
            sent,
            common: self.common,
            memory: &self.memory,
            round,
        };
        others_hear(&mut self.players, &slot);
    }

    // The round is over.
    fn end(&mut self, round: &Round)
        ensures { RoundOver self.old round.now self.new }
    {
        let last = self.is_last();
        let span = self.schedule.cluster.nodes() * self.schedule.length;
        all_end(&mut self.players, last, span, &round.given);
        self.common = self.common.saturating_add(span);
        self.round = self.round.saturating_add(1);
    }

    // Whether the round is the last one of its cycle.
    fn is_last(&self) -> bool
        ensures { result ≡ is_last self.now }
    {
        self.turn().place_in_cycle() == self.schedule.cluster.faults()
    }

    // A turn of the round.
    fn turn(&self) -> Turn
        ensures { result ≡ turn_in self.now.schedule.cluster self.now.round 0 }
    {
        Turn {
            cluster: self.schedule.cluster,
            sender: 0,
            round: self.round,
        }
    }
}

// The slot of a node is over for all others.
fn others_hear(players: &mut [Player; MAX_NODES], slot: &Slot<'_>)
    requires { slot.now.sender < 16 }
    ensures others { EachIndex players.old (λ p. (p ≢ slot.now.sender) → HearsAs slot.now.sender (slot_heard slot.now.sent slot.now.common slot.now.memory.now slot.now.round.now slot.now.sender p) (slice_index_or players.old p player.Bad) (slice_index_or players.new p player.Bad)) }
    ensures own { slice_index_or players.new slot.now.sender player.Bad ≡ slice_index_or players.old slot.now.sender player.Bad }
{
    for (number, player) in players.iter_mut().enumerate() {
        if number != usize::from(slot.sender) {
            player.hear(number, slot);
        }
    }
}

// The round is over for all.
fn all_end(players: &mut [Player; MAX_NODES], last: bool, span: u64, given: &Given)
    ensures { EachIndex players.old (λ p. EndsAs last span given.now p (slice_index_or players.old p player.Bad) (slice_index_or players.new p player.Bad)) }
{
    for (number, player) in players.iter_mut().enumerate() {
        player.end(number, last, span, given);
    }
}
