//! The lines of a round that was played.
use cluster::{Bus, Came, Station};
use midpoint::MAX_NODES;
use std::io;
use std::io::Write;

// The lines of the last round: what was turned away, the good clocks, and behind a cycle the results.
pub(crate) fn write_round<W: Write>(out: &mut W, bus: &Bus) -> io::Result<()> {
    for node in 0..MAX_NODES {
        write_frames_turned_away(out, bus, node)?;
    }
    for node in 0..MAX_NODES {
        write_setting_turned_away(out, bus, node)?;
    }
    write_clocks(out, bus)?;
    if bus.has_ended_cycle() {
        write_all_results(out, bus)?;
    }
    Ok(())
}

// The frames that a node turned away.
fn write_frames_turned_away<W: Write>(out: &mut W, bus: &Bus, node: usize) -> io::Result<()> {
    if let Some(station) = bus.station(node) {
        for sender in 0..MAX_NODES {
            if let Came::TurnedAway(code) = station.came(sender) {
                writeln!(out, "refused {code}: {node} from {sender}")?;
            }
        }
    }
    Ok(())
}

// Why a node's clock was not set, if it was not.
fn write_setting_turned_away<W: Write>(out: &mut W, bus: &Bus, node: usize) -> io::Result<()> {
    if let Some(code) = bus.station(node).and_then(|station| station.refused) {
        writeln!(out, "refused {code}: {node}")?;
    }
    Ok(())
}

// The good clocks, as the next round finds them.
fn write_clocks<W: Write>(out: &mut W, bus: &Bus) -> io::Result<()> {
    write!(out, "clocks")?;
    for node in 0..MAX_NODES {
        if let Some(station) = bus.station(node) {
            let ahead = bus.ahead(station.time);
            write!(out, " {ahead}")?;
        }
    }
    writeln!(out)
}

// What the good nodes have at the end of a cycle.
fn write_all_results<W: Write>(out: &mut W, bus: &Bus) -> io::Result<()> {
    for node in 0..MAX_NODES {
        if let Some(station) = bus.station(node) {
            write!(out, "results of {node}:")?;
            write_results(out, station)?;
        }
    }
    Ok(())
}

fn write_results<W: Write>(out: &mut W, station: &Station) -> io::Result<()> {
    match station.results() {
        Some(results) => {
            for result in results {
                write!(out, " {result}")?;
            }
        }
        None => write!(out, " none")?,
    }
    writeln!(out)
}
