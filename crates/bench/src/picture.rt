//! The picture of a play: three panels above each other, over the rounds.
use crate::history::History;
use crate::svg::{Length, across, down, signed, text};
use crate::{clocks_panel, readings_panel, results_panel};
use std::alloc::{AllocError, Global};
use std::fmt::Write;

// The picture's width, and where its panels begin and end.
const WIDTH: Length = Length(10000);

pub(crate) const LEFT: Length = Length(760);

const TITLE_Y: Length = Length(300);

const SHOWN_Y: Length = Length(500);

pub(crate) const PANEL_WIDTH: Length = Length(7700);

const CLOCKS_TOP: Length = Length(860);

const READINGS_TOP: Length = Length(3660);

const RESULTS_TOP: Length = Length(6060);

// The room below the last panel for the axis of rounds, and how far above the picture's end its numbers stand.
const AXIS: Length = Length(500);

const AXIS_NUMBERS: Length = Length(340);

// An axis that goes so far has numbers that are longer than the room beside it.
const LONG: i64 = 1_000_000_000;

// How things look, by their classes.
const STYLE: &str = "<style>
text{font:11px sans-serif;fill:#333}
.title{font-size:16px}
.head{font-size:12px;font-weight:bold}
.start{text-anchor:start}
.end{text-anchor:end}
.middle{text-anchor:middle}
.value{text-anchor:middle;font-size:10px}
.bad{text-anchor:middle;font-size:10px;fill:#888}
.split{text-anchor:middle;font-size:10px;fill:#c0392b}
path{fill:none;stroke-linejoin:round}
.grid{stroke:#e4e4e4}
.zero{stroke:#aaa}
.frame{fill:none;stroke:#aaa}
.band{fill:#dcebdc}
.clock{stroke-width:1.4}
.dashed{stroke-width:1.4;stroke-dasharray:5 2}
.read{stroke-width:5;stroke-linecap:round}
.many{stroke-width:2.5;stroke-linecap:round}
.none{stroke:#aaa}
.agree{fill:#2e8b57}
.differ{fill:#c0392b}
</style>
";

/// Where things stand along the axis of rounds: a column for the start, and one for each round.
#[derive(Clone, Copy)]
pub(crate) struct Columns {
    count: i64,
}

/// A panel's axis of ticks: 0 stands half its height below its top, and this many ticks at the top.
#[derive(Clone, Copy)]
pub(crate) struct Ticks {
    pub(crate) top: Length,
    pub(crate) half: Length,
    pub(crate) most: i64,
}

// A step along an axis: 1, 2 or 5 times a power of ten, and how many zeros that power has.
#[derive(Clone, Copy)]
struct Step {
    part: i64,
    power: i64,
    zeros: usize,
}

// The picture of a play, as SVG.
pub(crate) fn picture(heap: Global, history: &History) -> Result<String, AllocError> {
    let mut svg = String::new(heap);
    let columns = Columns::of(history);
    let height = RESULTS_TOP + results_panel::height(history, &columns) + AXIS;
    begin(&mut svg, height)?;
    title(&mut svg, history)?;
    clocks_panel::draw(&mut svg, history, &columns, CLOCKS_TOP)?;
    readings_panel::draw(&mut svg, history, &columns, READINGS_TOP)?;
    results_panel::draw(&mut svg, history, &columns, RESULTS_TOP)?;
    rounds_axis(&mut svg, &columns, height - AXIS_NUMBERS)?;
    svg.push_str("</svg>\n")?;
    Ok(svg)
}

fn begin(svg: &mut String, height: Length) -> Result<(), AllocError> {
    writeln!(
        svg,
        "<svg xmlns='http://www.w3.org/2000/svg' viewBox='0 0 {WIDTH} {height}' width='{WIDTH}' height='{height}'>"
    )?;
    svg.push_str(STYLE)?;
    writeln!(
        svg,
        "<rect width='{WIDTH}' height='{height}' style='fill:#fff'/>"
    )
}

// The cluster's numbers, and how much of the script is shown.
fn title(svg: &mut String, history: &History) -> Result<(), AllocError> {
    let cluster = &history.cluster;
    let nodes = cluster.nodes();
    let faults = cluster.faults();
    let drift = cluster.drift();
    let jitter = cluster.jitter();
    let error = cluster.error();
    let bound = cluster.bound();
    writeln!(
        svg,
        "<text class='title' x='{LEFT}' y='{TITLE_Y}'>{nodes} nodes, at most {faults} faulty: \
         drift {drift}, jitter {jitter}, error {error}, bound {bound} ticks</text>"
    )?;
    write!(svg, "<text x='{LEFT}' y='{SHOWN_Y}'>")?;
    let shown = history.shown();
    let rounds = history.rounds;
    if shown as u64 == rounds {
        write!(svg, "all rounds of the script: {rounds}")?;
    } else {
        write!(svg, "the first {shown} rounds of {rounds}")?;
    }
    writeln!(svg, "</text>")
}

// The numbers of rounds below the panels.
fn rounds_axis(svg: &mut String, columns: &Columns, y: Length) -> Result<(), AllocError> {
    for round in columns.marks() {
        text(svg, "middle", columns.x(round), y, round)?;
    }
    text(
        svg,
        "middle",
        LEFT + PANEL_WIDTH.part(1, 2),
        y + Length(180),
        "rounds; 0 is the start",
    )
}

impl Columns {
    pub(crate) fn of(history: &History) -> Columns {
        Columns {
            count: signed(history.clocks.len()),
        }
    }

    /// The middle of a round's column.
    pub(crate) fn x(&self, round: usize) -> Length {
        let halves = signed(round).saturating_mul(2).saturating_add(1);
        LEFT + PANEL_WIDTH.part(halves, self.count.saturating_mul(2))
    }

    /// The width of this many columns.
    pub(crate) fn width(&self, columns: i64) -> Length {
        PANEL_WIDTH.part(columns, self.count)
    }

    /// Lines down from the rounds that are marked.
    pub(crate) fn grid(
        &self,
        svg: &mut String,
        top: Length,
        height: Length,
    ) -> Result<(), AllocError> {
        for round in self.marks() {
            down(svg, "grid", self.x(round), top, height)?;
        }
        Ok(())
    }

    // The rounds that are marked: at most fifteen, at even steps.
    fn marks(&self) -> std::iter::StepBy<std::ops::Range<usize>> {
        let step = even_step(self.count.saturating_sub(1), 14).size();
        (0..self.count.unsigned_abs() as usize).step_by(step.unsigned_abs().max(1) as usize)
    }
}

impl Ticks {
    /// Where so many ticks stand. What is farther off than the axis goes stands at its end.
    pub(crate) fn y(&self, ticks: i64) -> Length {
        self.top + self.half - self.half.part(self.within(ticks), self.most)
    }

    fn within(&self, ticks: i64) -> i64 {
        ticks.max(0i64.saturating_sub(self.most)).min(self.most)
    }

    /// Whether it is farther off than the axis goes.
    pub(crate) fn is_off(&self, ticks: i64) -> bool {
        self.within(ticks) != ticks
    }

    /// A line for every few ticks, with its number.
    pub(crate) fn grid(&self, svg: &mut String) -> Result<(), AllocError> {
        let step = even_step(self.most, 4);
        for steps in -4i64..=4 {
            if !self.is_off(step.size().saturating_mul(steps)) {
                self.mark(svg, &step, steps)?;
            }
        }
        Ok(())
    }

    // The line for so many steps. Where the axis goes so far that numbers have no room beside it, they are told by their power of ten.
    fn mark(&self, svg: &mut String, step: &Step, steps: i64) -> Result<(), AllocError> {
        let ticks = step.size().saturating_mul(steps);
        let y = self.y(ticks);
        let class = if ticks == 0 { "zero" } else { "grid" };
        across(svg, class, LEFT, y, PANEL_WIDTH)?;
        let x = LEFT - Length(60);
        let y = y + Length(40);
        if ticks != 0 && self.most >= LONG {
            let tens = step.part.saturating_mul(steps);
            let zeros = step.zeros;
            text(svg, "end", x, y, format_args!("{tens}·10^{zeros}"))
        } else {
            text(svg, "end", x, y, ticks)
        }
    }
}

impl Step {
    fn size(&self) -> i64 {
        self.power.saturating_mul(self.part)
    }
}

// The least step of which this many come to `all`.
fn even_step(all: i64, steps: i64) -> Step {
    let mut power = 1i64;
    for zeros in 0..18usize {
        for part in [1, 2, 5] {
            let step = Step { part, power, zeros };
            if step.size().saturating_mul(steps) >= all {
                return step;
            }
        }
        power = power.saturating_mul(10);
    }
    Step {
        part: 1,
        power,
        zeros: 18,
    }
}
