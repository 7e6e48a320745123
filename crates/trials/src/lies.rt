//! What bad nodes send in a round.
use crate::counts::Counts;
use crate::dice::Dice;
use crate::liar::{Hands, Liar, Shape, Tale};
use crate::trial::Trial;
use frame::Turn;
use midpoint::{CLOCK_LIMIT, MAX_NODES};
use script::{Message, Round};
use std::alloc::{AllocError, Global};

/// How far the numbers of noise are apart: 2^64, divided by the golden ratio.
const NOISE_STEP: u64 = 0x9e37_79b9_7f4a_7c15;

/// A round, as liars know it.
#[derive(Clone, Copy)]
pub(crate) struct Stage<'a> {
    pub(crate) trial: &'a Trial,
    /// What each good node gives in this cycle.
    pub(crate) values: &'a [u32; MAX_NODES],
    /// What liars tell of each node, to the one side and to the other.
    pub(crate) lies: &'a [[u32; 2]; MAX_NODES],
    pub(crate) round: u64,
    /// By how much early and late clocks are off.
    pub(crate) far: u64,
}

/// What a bad node does for one good node.
#[derive(Clone, Copy)]
struct Lie {
    from: u8,
    to: usize,
    shape: Shape,
    hands: Hands,
    tale: Tale,
}

impl Stage<'_> {
    /// What a node sends, if it is a bad one.
    pub(crate) fn play(
        &self,
        heap: Global,
        dice: &mut Dice,
        from: u8,
        round: &mut Round,
        counts: &mut Counts,
    ) -> Result<(), AllocError> {
        let Some(liar) = self.trial.liar(dice, usize::from(from)) else {
            return Ok(());
        };
        for to in 0..self.trial.nodes() {
            if self.trial.is_good(to) {
                let lie = self.lie(&liar, from, to);
                counts.lie(lie.shape, lie.hands, lie.tale);
                self.tell(heap, dice, &lie, round)?;
            }
        }
        Ok(())
    }

    fn lie(&self, liar: &Liar, from: u8, to: usize) -> Lie {
        let Liar { hands, tale, .. } = *liar;
        let shape = if liar.half && !self.trial.is_ahead(to) {
            Shape::Whole
        } else {
            liar.shape
        };
        Lie {
            from,
            to,
            shape,
            hands,
            tale,
        }
    }

    // The messages of a slot.
    fn tell(
        &self,
        heap: Global,
        dice: &mut Dice,
        lie: &Lie,
        round: &mut Round,
    ) -> Result<(), AllocError> {
        for _ in 0..times(lie.shape) {
            let reading = self.reading(dice, lie);
            let bytes = self.bytes(heap, dice, lie)?;
            round.add_message(Message {
                from: usize::from(lie.from),
                to: lie.to,
                reading,
                bytes,
            })?;
        }
        Ok(())
    }

    // How far ahead the sender's clock is read.
    fn reading(&self, dice: &mut Dice, lie: &Lie) -> u64 {
        let middle = self
            .trial
            .base
            .saturating_add(self.trial.cluster().bound() / 2);
        let early = middle.saturating_add(self.far);
        let late = middle.saturating_sub(self.far);
        let ahead = self.trial.is_ahead(lie.to);
        match lie.hands {
            Hands::Right => middle,
            Hands::Early => early,
            Hands::Late => late,
            Hands::Apart => if ahead { early } else { late },
            Hands::Any => dice.up_to(middle.saturating_mul(2)),
            Hands::Far => if ahead { self.far_off(dice) } else { 0 },
        }
    }

    // Just below what is turned away; or beyond, in some trials.
    fn far_off(&self, dice: &mut Dice) -> u64 {
        let cluster = self.trial.cluster();
        let span = cluster
            .nodes()
            .saturating_mul(self.trial.setup.schedule.length);
        let room = CLOCK_LIMIT.saturating_sub(self.round.saturating_mul(span));
        if !self.trial.beyond {
            room.saturating_sub(1)
        } else if dice.one_in(2) {
            u64::MAX
        } else {
            room.saturating_add(self.far)
        }
    }

    // The bytes of a message.
    fn bytes(&self, heap: Global, dice: &mut Dice, lie: &Lie) -> Result<Vec<u8>, AllocError> {
        if lie.shape == Shape::Rubbish {
            return rubbish(heap, dice);
        }
        let turn = Turn {
            cluster: self.trial.cluster(),
            sender: lie.from,
            round: self.round,
        };
        let header = shown(dice, turn, lie.shape).header();
        let told = self.told(heap, dice, &turn, lie)?;
        let mut bytes = frame(heap, &header, &told)?;
        match lie.shape {
            Shape::Cut => cut(dice, &mut bytes),
            Shape::Long => lengthen(dice, &mut bytes)?,
            _ => (),
        }
        Ok(bytes)
    }

    // The values of a frame.
    fn told(
        &self,
        heap: Global,
        dice: &mut Dice,
        turn: &Turn,
        lie: &Lie,
    ) -> Result<Vec<u32>, AllocError> {
        let noise = if lie.tale == Tale::Noise {
            dice.next()
        } else {
            0
        };
        let count = turn.value_count();
        let block = self.block(turn);
        let mut told = Vec::with_capacity(heap, count)?;
        for index in 0..count {
            let value = match lie.tale {
                Tale::Noise => noisy(noise, index),
                Tale::Zero => 0,
                _ => self.value(lie, index, origin(turn, block, index)),
            };
            told.push(value)?;
        }
        Ok(told)
    }

    // How many paths end with one and the same node; 0 in a cycle's first round, which has no paths.
    fn block(&self, turn: &Turn) -> usize {
        let others = self.trial.nodes().saturating_sub(1);
        if turn.place_in_cycle() == 0 {
            0
        } else {
            turn.value_count().checked_div(others).unwrap_or(0)
        }
    }

    // What is told of a node's value, at an index of the frame.
    fn value(&self, lie: &Lie, index: usize, origin: usize) -> u32 {
        let side = usize::from(self.trial.is_ahead(lie.to));
        match lie.tale {
            Tale::Slander => self.lie_of(origin, side),
            Tale::Mixed => self.lie_of(origin, index.wrapping_add(lie.to) % 2),
            _ if self.trial.is_good(origin) => self.given(origin),
            Tale::TwoFaced => self.lie_of(origin, side),
            _ => self.lie_of(origin, 0),
        }
    }

    fn given(&self, node: usize) -> u32 {
        let values = self.values;
        values.get(node).copied().unwrap_or(0)
    }

    // What liars tell of a node, to this side.
    fn lie_of(&self, node: usize, side: usize) -> u32 {
        let lies = self.lies;
        lies.get(node)
            .and_then(|told| told.get(side).copied())
            .unwrap_or(0)
    }
}

// How many messages there are in a slot.
fn times(shape: Shape) -> u8 {
    match shape {
        Shape::Silent => 0,
        Shape::Twice => 2,
        _ => 1,
    }
}

// The turn that a frame's header shows.
fn shown(dice: &mut Dice, turn: Turn, shape: Shape) -> Turn {
    match shape {
        Shape::WrongRound => Turn {
            round: turn.round.wrapping_add(drawn_rounds(dice)),
            ..turn
        },
        Shape::WrongSender => Turn {
            sender: ((u64::from(turn.sender) + 1 + dice.below(255)) % 256) as u8,
            ..turn
        },
        _ => turn,
    }
}

// How many rounds another round is ahead, modulo 2^32: one, one behind, or any.
fn drawn_rounds(dice: &mut Dice) -> u64 {
    match dice.below(3) {
        0 => 1,
        1 => u64::from(u32::MAX),
        _ => dice.below(u64::from(u32::MAX)) + 1,
    }
}

// Any few bytes.
fn rubbish(heap: Global, dice: &mut Dice) -> Result<Vec<u8>, AllocError> {
    let mut bytes = Vec::new(heap);
    for _ in 0..dice.below(64) {
        bytes.push((dice.next() & 255) as u8)?;
    }
    Ok(bytes)
}

// Some of its end is missing.
fn cut(dice: &mut Dice, bytes: &mut Vec<u8>) {
    let kept = dice.up_to((bytes.len() as u64).saturating_sub(1));
    bytes.truncate(kept as usize);
}

// A few bytes more.
fn lengthen(dice: &mut Dice, bytes: &mut Vec<u8>) -> Result<(), AllocError> {
    for _ in 0..=dice.below(8) {
        bytes.push(0)?;
    }
    Ok(())
}

// Whose value is told at an index. Paths rise as they are read from their last node, whose value it is.
fn origin(turn: &Turn, block: usize, index: usize) -> usize {
    let sender = usize::from(turn.sender);
    match index.checked_div(block) {
        None => sender,
        Some(other) => if other < sender {
            other
        } else {
            other.saturating_add(1)
        },
    }
}

fn noisy(noise: u64, index: usize) -> u32 {
    let mixed = noise.wrapping_add((index as u64).wrapping_mul(NOISE_STEP));
    (mixed >> 32) as u32
}

// A frame's bytes.
fn frame(heap: Global, header: &[u8], told: &[u32]) -> Result<Vec<u8>, AllocError> {
    let mut bytes = Vec::new(heap);
    for byte in header {
        bytes.push(*byte)?;
    }
    for value in told {
        for byte in value.to_le_bytes() {
            bytes.push(byte)?;
        }
    }
    Ok(bytes)
}
