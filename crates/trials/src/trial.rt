//! A cluster, as it is drawn.
use crate::dice::Dice;
use crate::liar::Liar;
use clock::Cluster;
use midpoint::MAX_NODES;
use schedule::Schedule;
use script::{Setup, Starting};

/// No cluster that is drawn allows more faults.
pub(crate) const MAX_FAULTS: usize = 3;

/// How good clocks run and read each other in a round.
#[derive(Clone, Copy)]
pub(crate) enum Manner {
    /// Right.
    Still,
    Random,
    /// As far off as may be, away from the other side.
    Split,
    /// As far off as may be, either way.
    Edges,
}

/// A cluster with its liars, and how many cycles it plays.
#[derive(Clone, Copy)]
pub(crate) struct Trial {
    pub(crate) setup: Setup,
    /// A bit for each node: on which side it is.
    pub(crate) sides: u64,
    /// How far the good clocks are ahead at least as they start.
    pub(crate) base: u64,
    /// Whether bad nodes show clocks that are turned away. A node that turns a reading away keeps its clock: bound, halving and
    /// setting are not looked at there.
    pub(crate) beyond: bool,
    pub(crate) cycles: u64,
    pub(crate) manner: Manner,
    /// Whether all bad nodes tell the same.
    pub(crate) concert: bool,
    pub(crate) liars: [Option<Liar>; MAX_NODES],
}

/// How many nodes there are, and how many may be faulty.
#[derive(Clone, Copy)]
struct Size {
    nodes: u64,
    faults: u64,
}

/// How far apart good clocks start.
#[derive(Clone, Copy)]
enum Spread {
    Together,
    Random,
    /// The one side as far from the other as may be.
    Sides,
}

impl Manner {
    pub(crate) fn drawn(dice: &mut Dice) -> Manner {
        dice.one_of(&[Manner::Still, Manner::Random, Manner::Split, Manner::Edges])
    }
}

impl Trial {
    pub(crate) fn drawn(dice: &mut Dice, one_too_many: bool) -> anyhow::Result<Trial> {
        let size = drawn_size(dice);
        let schedule = drawn_schedule(dice, &size)?;
        let sides = dice.next();
        let base = drawn_base(dice);
        let beyond = dice.one_in(8);
        let cycles = dice.below(3) + 1;
        let left = drawn_bad(dice, size.faults, one_too_many);
        let starting = drawn_nodes(dice, &schedule.cluster, sides, base, left);
        let manner = Manner::drawn(dice);
        let concert = dice.one_in(2);
        let liars = drawn_liars(dice, &starting, size.nodes, concert);
        Ok(Trial {
            setup: Setup { schedule, starting },
            sides,
            base,
            beyond,
            cycles,
            manner,
            concert,
            liars,
        })
    }

    pub(crate) fn cluster(&self) -> Cluster {
        self.setup.schedule.cluster
    }

    /// How many nodes there are.
    pub(crate) fn nodes(&self) -> usize {
        self.cluster().nodes() as usize
    }

    pub(crate) fn is_good(&self, node: usize) -> bool {
        let starts = self.setup.starting.get(node);
        starts.is_some_and(|starts| starts.is_good())
    }

    /// How many rounds are played.
    pub(crate) fn rounds(&self) -> u64 {
        self.cycles
            .saturating_mul(self.cluster().faults().saturating_add(1))
    }

    /// What a bad node does in a round, if it is one.
    pub(crate) fn liar(&self, dice: &mut Dice, node: usize) -> Option<Liar> {
        let liar = self.liars.get(node).copied().flatten()?;
        Some(if liar.fickle { Liar::drawn(dice) } else { liar })
    }

    /// Whether a node is on the one side, and not on the other.
    pub(crate) fn is_ahead(&self, node: usize) -> bool {
        is_set(self.sides, node)
    }
}

/// Whether this bit is set.
pub(crate) fn is_set(bits: u64, place: usize) -> bool {
    place < 64 && (bits >> place) & 1 == 1
}

// The largest clusters come rarely: they take long.
fn drawn_size(dice: &mut Dice) -> Size {
    let faults = dice.up_to(MAX_FAULTS as u64);
    let least = (3 * faults + 1).max(4);
    let nodes = least + dice.up_to(16 - least);
    if faults == MAX_FAULTS as u64 && nodes >= 12 && !dice.one_in(8) {
        return Size {
            nodes: 10 + dice.below(2),
            faults,
        };
    }
    Size { nodes, faults }
}

fn drawn_ticks(dice: &mut Dice) -> u64 {
    match dice.below(4) {
        0 => 0,
        1 => dice.up_to(10),
        2 => dice.up_to(1000),
        _ => 1000,
    }
}

// What a time is longer than it has to be.
fn drawn_room(dice: &mut Dice) -> u64 {
    if dice.one_in(2) {
        0
    } else {
        dice.up_to(1_000_000)
    }
}

fn drawn_schedule(dice: &mut Dice, size: &Size) -> anyhow::Result<Schedule> {
    let drift = drawn_ticks(dice);
    let jitter = drawn_ticks(dice);
    let cluster = Cluster::new(size.nodes, size.faults, drift, jitter)?;
    let message = dice.up_to(1000).saturating_add(1);
    let wire = dice.up_to(50);
    let shortest = total([cluster.width(), cluster.error(), drift]);
    let pause = shortest.saturating_add(drawn_room(dice));
    let shortest = total([pause, wire, cluster.width(), message]);
    let length = shortest.saturating_add(drawn_room(dice));
    Ok(Schedule::new(cluster, length, pause, message, wire)?)
}

fn total<const N: usize>(times: [u64; N]) -> u64 {
    let mut total = 0u64;
    for time in times {
        total = total.saturating_add(time);
    }
    total
}

fn drawn_base(dice: &mut Dice) -> u64 {
    match dice.below(3) {
        0 => 0,
        1 => dice.up_to(10_000),
        _ => dice.up_to(1_000_000_000).saturating_add(1_000_000),
    }
}

// How many nodes are bad: mostly just as many as may be.
fn drawn_bad(dice: &mut Dice, faults: u64, one_too_many: bool) -> u64 {
    let fewer = dice.one_in(4);
    let some = dice.up_to(faults);
    if one_too_many {
        faults.saturating_add(1)
    } else if fewer {
        some
    } else {
        faults
    }
}

// How each node starts: any `left` of them are bad.
fn drawn_nodes(
    dice: &mut Dice,
    cluster: &Cluster,
    sides: u64,
    base: u64,
    mut left: u64,
) -> [Starting; MAX_NODES] {
    let spread = dice.one_of(&[Spread::Together, Spread::Random, Spread::Sides]);
    let mut starting = [Starting::Bad; MAX_NODES];
    for (node, place) in starting.iter_mut().enumerate() {
        let to_come = cluster.nodes().saturating_sub(node as u64);
        if to_come == 0 {
            break;
        }
        if dice.below(to_come) < left {
            left = left.saturating_sub(1);
        } else {
            let value = dice.value();
            let apart = drawn_apart(dice, &spread, cluster.bound(), is_set(sides, node));
            *place = Starting::Good {
                value,
                ahead: base.saturating_add(apart),
            };
        }
    }
    starting
}

fn drawn_apart(dice: &mut Dice, spread: &Spread, bound: u64, ahead: bool) -> u64 {
    match spread {
        Spread::Together => 0,
        Spread::Random => dice.up_to(bound),
        Spread::Sides => { if ahead { bound } else { 0 } }
    }
}

fn drawn_liars(
    dice: &mut Dice,
    starting: &[Starting; MAX_NODES],
    nodes: u64,
    concert: bool,
) -> [Option<Liar>; MAX_NODES] {
    let shared = Liar::drawn(dice);
    let mut liars = [None; MAX_NODES];
    for ((node, place), starts) in liars.iter_mut().enumerate().zip(starting) {
        if (node as u64) < nodes && !starts.is_good() {
            *place = Some(if concert { shared } else { Liar::drawn(dice) });
        }
    }
    liars
}
