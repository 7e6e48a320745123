//! The panel of the bad nodes: what each made each good node read.
use crate::history::{History, Reading};
use crate::picture::{Columns, LEFT, PANEL_WIDTH, Ticks};
use crate::svg::{Length, colour, rectangle, signed, text};
use std::alloc::AllocError;
use std::fmt::Write;

const HALF: Length = Length(900);

// The axis goes at most as far as this many bounds.
const MOST_BOUNDS: i64 = 10;

// Of more rounds the dots are small.
const FEW_ROUNDS: usize = 100;

// A panel on its page.
#[derive(Clone, Copy)]
struct Panel {
    columns: Columns,
    ticks: Ticks,
    // how many readings there are in each round
    pairs: usize,
}

pub(crate) fn draw(
    svg: &mut String,
    history: &History,
    columns: &Columns,
    top: Length,
) -> Result<(), AllocError> {
    let good = history.good_count();
    let panel = Panel {
        columns: *columns,
        ticks: Ticks {
            top,
            half: HALF,
            most: most(history),
        },
        pairs: good.saturating_mul(history.nodes().saturating_sub(good)),
    };
    heads(svg, history, top)?;
    columns.grid(svg, top, HALF + HALF)?;
    panel.ticks.grid(svg)?;
    for node in 0..history.nodes() {
        panel.draw_taken(svg, history, node)?;
    }
    panel.draw_not_taken(svg, history)?;
    rectangle(svg, "frame", (LEFT, top), (PANEL_WIDTH, HALF + HALF))
}

fn heads(svg: &mut String, history: &History, top: Length) -> Result<(), AllocError> {
    let y = top - Length(240);
    write!(
        svg,
        "<text class='head' x='{LEFT}' y='{y}'>What the good nodes read of the bad ones"
    )?;
    bad_nodes(svg, history)?;
    writeln!(svg, ": ticks ahead of the good clocks' mean</text>")?;
    text(
        svg,
        "start",
        LEFT,
        top - Length(80),
        "the colour is that of the good node that read; a triangle is farther off; grey, at the bottom, is nothing heard, or turned away",
    )
}

// The bad nodes, if there are any.
fn bad_nodes(svg: &mut String, history: &History) -> Result<(), AllocError> {
    let mut named = false;
    for (node, good) in history.good.iter().take(history.nodes()).enumerate() {
        if !*good {
            let mark = if named { ", " } else { " (" };
            write!(svg, "{mark}{node}")?;
            named = true;
        }
    }
    let end = if named { ")" } else { " (there are none)" };
    write!(svg, "{end}")
}

// The ticks at the top of the axis: those of the farthest reading, but the bound at least, and ten bounds at most.
fn most(history: &History) -> i64 {
    let bound = history.cluster.bound() as i64;
    let mut most = bound;
    for reading in &history.readings {
        if let Some(ahead) = reading.ahead {
            most = most.max(ahead).max(0i64.saturating_sub(ahead));
        }
    }
    let most = most.min(bound.saturating_mul(MOST_BOUNDS));
    most.saturating_add(most / 8).saturating_add(1)
}

impl Panel {
    // Where a reading stands across: those of one round stand side by side.
    fn x(&self, index: usize, reading: &Reading) -> Length {
        let pairs = signed(self.pairs);
        let place = signed(index.checked_rem(self.pairs).unwrap_or(0));
        let halves = place
            .saturating_mul(2)
            .saturating_add(1)
            .saturating_sub(pairs);
        let room = self.columns.width(1).part(4, 5);
        self.columns.x(reading.round) + room.part(halves, pairs.saturating_mul(2))
    }

    // The readings of a good node: those on the axis as dots, and those that are farther off as triangles that point away.
    fn draw_taken(&self, svg: &mut String, history: &History, by: usize) -> Result<(), AllocError> {
        let colour = colour(by);
        let class = if history.shown() > FEW_ROUNDS {
            "many"
        } else {
            "read"
        };
        write!(svg, "<path class='{class}' stroke='{colour}' d='")?;
        self.draw_shapes(svg, history, by, false)?;
        writeln!(svg, "'/>")?;
        write!(svg, "<path style='fill:{colour}' d='")?;
        self.draw_shapes(svg, history, by, true)?;
        writeln!(svg, "'/>")
    }

    // The shapes of a good node's readings: of those on the axis, or of those that are farther off.
    fn draw_shapes(
        &self,
        svg: &mut String,
        history: &History,
        by: usize,
        off: bool,
    ) -> Result<(), AllocError> {
        for (index, reading) in history.readings.iter().enumerate() {
            if let Some(ahead) = ahead_by(reading, by) {
                if self.ticks.is_off(ahead) == off {
                    let x = self.x(index, reading);
                    let y = self.ticks.y(ahead);
                    let shape = self.shape(ahead);
                    write!(svg, "M{x} {y}{shape}")?;
                }
            }
        }
        Ok(())
    }

    // A dot, or a triangle that points away from the axis.
    fn shape(&self, ahead: i64) -> &'static str {
        if !self.ticks.is_off(ahead) {
            "h0"
        } else if ahead > 0 {
            "l3 6h-6z"
        } else {
            "l3 -6h-6z"
        }
    }

    // What was not heard, or was turned away, as short lines at the bottom.
    fn draw_not_taken(&self, svg: &mut String, history: &History) -> Result<(), AllocError> {
        let bottom = self.ticks.top + HALF + HALF;
        write!(svg, "<path class='none' d='")?;
        for (index, reading) in history.readings.iter().enumerate() {
            if reading.ahead.is_none() {
                let x = self.x(index, reading);
                write!(svg, "M{x} {bottom}v-5")?;
            }
        }
        writeln!(svg, "'/>")
    }
}

// What a good node read, if it is that one's reading.
fn ahead_by(reading: &Reading, by: usize) -> Option<i64> {
    if reading.by == by {
        reading.ahead
    } else {
        None
    }
}
