//! Pieces of a picture, written as SVG.
use std::alloc::AllocError;
use std::fmt;
use std::fmt::{Display, Write};
use std::ops::{Add, Sub};

/// A length, or a place along an axis, in tenths of the picture's unit. At the ends of its range it stops.
#[derive(Clone, Copy)]
pub(crate) struct Length(pub(crate) i64);

impl Add for Length {
    type Output = Length;

    fn add(self, other: Length) -> Length {
        Length(self.0.saturating_add(other.0))
    }
}

impl Sub for Length {
    type Output = Length;

    fn sub(self, other: Length) -> Length {
        Length(self.0.saturating_sub(other.0))
    }
}

impl Length {
    /// This part of it: `part` of `whole`; nothing of none.
    pub(crate) fn part(self, part: i64, whole: i64) -> Length {
        Length(self.0.saturating_mul(part).checked_div(whole).unwrap_or(0))
    }
}

impl fmt::Display for Length {
    fn fmt<W: fmt::Write>(&self, f: &mut fmt::Formatter<W>) -> fmt::Result {
        if self.0 < 0 {
            write!(f, "-")?;
        }
        let size = self.0.unsigned_abs();
        let whole = size / 10;
        write!(f, "{whole}")?;
        let tenths = size % 10;
        if tenths != 0 {
            write!(f, ".{tenths}")?;
        }
        Ok(())
    }
}

/// A count, as far as it goes.
pub(crate) fn signed(count: usize) -> i64 {
    i64::try_from(count).unwrap_or(i64::MAX)
}

/// The colour of a node.
pub(crate) fn colour(node: usize) -> &'static str {
    const COLOURS: [&str; 16] = [
        "#1f77b4", "#ff7f0e", "#2ca02c", "#9467bd", "#8c564b", "#e377c2", "#17becf", "#bcbd22",
        "#d62728", "#393b79", "#637939", "#8c6d31", "#843c39", "#7b4173", "#3182bd", "#e6550d",
    ];
    COLOURS.get(node).copied().unwrap_or("#333")
}

/// A text; it may hold no '<' and no '&'. Its class says how it looks, and which of its points is here.
pub(crate) fn text(
    svg: &mut String,
    class: &str,
    x: Length,
    y: Length,
    words: impl Display + Drop,
) -> Result<(), AllocError> {
    writeln!(svg, "<text class='{class}' x='{x}' y='{y}'>{words}</text>")
}

/// A line straight across.
pub(crate) fn across(
    svg: &mut String,
    class: &str,
    x: Length,
    y: Length,
    width: Length,
) -> Result<(), AllocError> {
    writeln!(svg, "<path class='{class}' d='M{x} {y}h{width}'/>")
}

/// A line straight down.
pub(crate) fn down(
    svg: &mut String,
    class: &str,
    x: Length,
    y: Length,
    height: Length,
) -> Result<(), AllocError> {
    writeln!(svg, "<path class='{class}' d='M{x} {y}v{height}'/>")
}

/// An upright rectangle.
pub(crate) fn rectangle(
    svg: &mut String,
    class: &str,
    corner: (Length, Length),
    size: (Length, Length),
) -> Result<(), AllocError> {
    let (x, y) = corner;
    let (width, height) = size;
    writeln!(
        svg,
        "<rect class='{class}' x='{x}' y='{y}' width='{width}' height='{height}'/>"
    )
}
