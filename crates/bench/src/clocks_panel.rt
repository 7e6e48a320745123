//! The panel of the good clocks: how far each is ahead of their mean.
use crate::history::{Clocks, History, Spread};
use crate::picture::{Columns, LEFT, PANEL_WIDTH, Ticks};
use crate::svg::{Length, colour, rectangle, text};
use std::alloc::AllocError;
use std::fmt::{Display, Write};

const HALF: Length = Length(1150);

const LEGEND_ROW: Length = Length(130);

// As many nodes have solid lines.
const SOLID: usize = 8;

pub(crate) fn draw(
    svg: &mut String,
    history: &History,
    columns: &Columns,
    top: Length,
) -> Result<(), AllocError> {
    let ticks = Ticks {
        top,
        half: HALF,
        most: most(history),
    };
    text(
        svg,
        "head",
        LEFT,
        top - Length(80),
        "The good clocks as the next round finds them: ticks ahead of their mean",
    )?;
    band(svg, history, columns, &ticks)?;
    columns.grid(svg, top, HALF + HALF)?;
    ticks.grid(svg)?;
    for node in 0..history.nodes() {
        line(svg, history, columns, &ticks, node)?;
    }
    rectangle(svg, "frame", (LEFT, top), (PANEL_WIDTH, HALF + HALF))?;
    legend(svg, history, top)
}

// The ticks at the top of the axis: all that is drawn is within, with some room.
fn most(history: &History) -> i64 {
    let half_bound = half_bound(history);
    let mut most = 1i64;
    for clocks in &history.clocks {
        if let Some(spread) = clocks.spread() {
            let above = spread.high.max(spread.middle().saturating_add(half_bound));
            let below = spread.low.min(spread.middle().saturating_sub(half_bound));
            most = most
                .max(above.saturating_sub(spread.mean))
                .max(spread.mean.saturating_sub(below));
        }
    }
    most.saturating_add(most / 16).saturating_add(1)
}

fn half_bound(history: &History) -> i64 {
    (history.cluster.bound() / 2) as i64
}

impl Spread {
    // Half way between the lowest and the highest.
    fn middle(&self) -> i64 {
        self.low
            .saturating_add(self.high.saturating_sub(self.low) / 2)
    }
}

// The bound, as a band about the middle of the good clocks.
fn band(
    svg: &mut String,
    history: &History,
    columns: &Columns,
    ticks: &Ticks,
) -> Result<(), AllocError> {
    let half_bound = half_bound(history);
    let clocks = history.clocks.as_slice();
    let mut begun = false;
    write!(svg, "<path class='band' d='")?;
    for (round, clocks) in clocks.iter().enumerate() {
        if let Some(y) = edge_of_band(clocks, half_bound, ticks) {
            corner(svg, begun, columns.x(round), y)?;
            begun = true;
        }
    }
    for (round, clocks) in clocks.iter().enumerate().rev() {
        if let Some(y) = edge_of_band(clocks, 0i64.saturating_sub(half_bound), ticks) {
            corner(svg, begun, columns.x(round), y)?;
        }
    }
    writeln!(svg, "'/>")
}

// A corner of a path, which begins here or has begun.
fn corner(svg: &mut String, begun: bool, x: Length, y: Length) -> Result<(), AllocError> {
    let letter = if begun { 'L' } else { 'M' };
    write!(svg, "{letter}{x} {y}")
}

// Where the band has an edge, so many ticks from the middle.
fn edge_of_band(clocks: &Clocks, off: i64, ticks: &Ticks) -> Option<Length> {
    let spread = clocks.spread()?;
    Some(ticks.y(
        spread
            .middle()
            .saturating_add(off)
            .saturating_sub(spread.mean),
    ))
}

// The line of a good node.
fn line(
    svg: &mut String,
    history: &History,
    columns: &Columns,
    ticks: &Ticks,
    node: usize,
) -> Result<(), AllocError> {
    let mut begun = false;
    begin_line(svg, node)?;
    write!(svg, " d='")?;
    for (round, clocks) in history.clocks.iter().enumerate() {
        if let Some(y) = place(clocks, node, ticks) {
            corner(svg, begun, columns.x(round), y)?;
            begun = true;
        }
    }
    writeln!(svg, "'/>")
}

// A node's line begins: in its colour, and dashed for those whose colours are less easily told apart.
fn begin_line(svg: &mut String, node: usize) -> Result<(), AllocError> {
    let class = if node < SOLID { "clock" } else { "dashed" };
    write!(svg, "<path class='{class}' stroke='{}'", colour(node))
}

// Where a clock stands.
fn place(clocks: &Clocks, node: usize, ticks: &Ticks) -> Option<Length> {
    let clock = clocks.0.get(node).copied().flatten()?;
    Some(ticks.y(clock.saturating_sub(clocks.spread()?.mean)))
}

// Which colour is whose, beside the panel; and below a node whose clock comes to the limit, so that its line ends there, that it does.
fn legend(svg: &mut String, history: &History, top: Length) -> Result<(), AllocError> {
    let x = LEFT + PANEL_WIDTH + Length(120);
    let mut y = top + Length(60);
    for (node, good) in history.good.iter().enumerate() {
        if *good {
            begin_line(svg, node)?;
            writeln!(svg, " d='M{x} {y}h18'/>")?;
            name(svg, x, y, format_args!("node {node}"))?;
            y = y + LEGEND_ROW;
            if leaves(history, node) {
                name(svg, x, y, "at 10^12 or past it")?;
                y = y + LEGEND_ROW;
            }
        }
    }
    rectangle(svg, "band", (x, y - Length(40)), (Length(180), Length(80)))?;
    let bound = history.cluster.bound();
    name(svg, x, y, format_args!("bound {bound} ticks"))
}

// The words of a row of the legend.
fn name(
    svg: &mut String,
    x: Length,
    y: Length,
    words: impl Display + Drop,
) -> Result<(), AllocError> {
    text(svg, "start", x + Length(240), y + Length(40), words)
}

// Whether a good node's clock comes to the limit.
fn leaves(history: &History, node: usize) -> bool {
    history
        .clocks
        .iter()
        .any(|clocks| clocks.0.get(node).copied().flatten().is_none())
}
