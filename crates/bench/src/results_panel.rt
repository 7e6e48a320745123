//! The panel of the results, at the cycles' ends.
use crate::history::{Cycle, History, Verdict};
use crate::picture::{Columns, LEFT, PANEL_WIDTH};
use crate::svg::{Length, rectangle, signed, text};
use std::alloc::AllocError;

// The height of the row of marks, and of a row of results.
const MARKS: Length = Length(280);

const ROW: Length = Length(130);

// The room below the last row.
const FOOT: Length = Length(60);

// How wide a digit is, and a word, and how far apart two results stand at least.
const DIGIT: i64 = 64;

const WORD: i64 = 320;

const GAP: i64 = 80;

// The panel's height.
pub(crate) fn height(history: &History, columns: &Columns) -> Length {
    if has_room(history, columns) {
        MARKS + FOOT + ROW.part(signed(history.nodes()), 1)
    } else {
        MARKS
    }
}

// Whether the results have room as text: a cycle's columns are as wide as the longest one.
fn has_room(history: &History, columns: &Columns) -> bool {
    let cycle = signed(history.cluster.faults() as usize).saturating_add(1);
    columns.width(cycle).0 >= widest(history).saturating_add(GAP)
}

// How wide the text of the widest cycle is.
fn widest(history: &History) -> i64 {
    let mut most = WORD;
    for cycle in &history.cycles {
        most = most.max(width(cycle));
    }
    most
}

// How wide a cycle's text is: a word, or its longest result.
fn width(cycle: &Cycle) -> i64 {
    let mut most = 1u32;
    for result in cycle.results.iter().flatten() {
        most = most.max(*result);
    }
    let digits = i64::from(most.max(1).ilog10()).saturating_add(1);
    digits.saturating_mul(DIGIT).max(WORD)
}

// Whether a cycle's text ends before the panel's frame.
fn is_within(cycle: &Cycle, columns: &Columns) -> bool {
    let end = columns.x(cycle.round) + Length(width(cycle)).part(1, 2);
    end.0 <= (LEFT + PANEL_WIDTH).0
}

pub(crate) fn draw(
    svg: &mut String,
    history: &History,
    columns: &Columns,
    top: Length,
) -> Result<(), AllocError> {
    let height = height(history, columns);
    let has_room = has_room(history, columns);
    text(
        svg,
        "head",
        LEFT,
        top - Length(80),
        "The good nodes' results at the ends of cycles: green if all have the same, and right ones for good nodes",
    )?;
    if has_room {
        names(svg, history, top)?;
    } else {
        columns.grid(svg, top, height)?;
    }
    for cycle in &history.cycles {
        mark(svg, cycle, columns, top, has_room)?;
        if has_room && is_within(cycle, columns) {
            results(svg, history, cycle, columns.x(cycle.round), top)?;
        }
    }
    rectangle(svg, "frame", (LEFT, top), (PANEL_WIDTH, height))
}

// Whose results stand in which row.
fn names(svg: &mut String, history: &History, top: Length) -> Result<(), AllocError> {
    for (node, good) in history.good.iter().take(history.nodes()).enumerate() {
        let kind = if *good { "" } else { "bad " };
        text(
            svg,
            "end",
            LEFT - Length(60),
            row(node, top),
            format_args!("of {kind}{node}"),
        )?;
    }
    Ok(())
}

// Where a node's row stands.
fn row(node: usize, top: Length) -> Length {
    top + MARKS + Length(100) + ROW.part(signed(node), 1)
}

// The mark of a cycle.
fn mark(
    svg: &mut String,
    cycle: &Cycle,
    columns: &Columns,
    top: Length,
    has_room: bool,
) -> Result<(), AllocError> {
    let (class, _) = said(cycle.verdict);
    let x = columns.x(cycle.round);
    let size = if has_room { Length(80) } else { Length(40) };
    rectangle(
        svg,
        class,
        (x - size.part(1, 2), top + Length(50)),
        (size, Length(80)),
    )
}

// What there is to say of a cycle: how its mark looks, and a word.
fn said(verdict: Verdict) -> (&'static str, &'static str) {
    match verdict {
        Verdict::Agree => ("agree", "agree"),
        Verdict::Wrong => ("differ", "wrong"),
        Verdict::Differ => ("differ", "differ"),
        Verdict::Missing => ("differ", "not all"),
    }
}

// A cycle's text: the word, and below it the results, one below the other.
fn results(
    svg: &mut String,
    history: &History,
    cycle: &Cycle,
    x: Length,
    top: Length,
) -> Result<(), AllocError> {
    let (_, word) = said(cycle.verdict);
    text(svg, "value", x, top + Length(230), word)?;
    for (node, good) in history.good.iter().take(history.nodes()).enumerate() {
        let y = row(node, top);
        match cycle.results.get(node).copied().flatten() {
            Some(result) if *good => text(svg, "value", x, y, result)?,
            Some(result) => text(svg, "bad", x, y, result)?,
            None => text(svg, "split", x, y, "differ")?,
        }
    }
    Ok(())
}
