// How drawings stand beside each other.

ghost use Rattle.std.specs.Prelude.{◌<◌, ◌≤◌};

// How wide the page is, in pixels.
const WIDTH: u32 = 680;

// The room between two drawings, and on the right of a curve.
const BETWEEN: u32 = 8;

const RIGHT: u32 = 10;

// How many drawings stand beside each other, how high each is, and whether its axes have labels.
#[derive(Clone, Copy)]
pub(crate) struct Layout {
    pub columns: u32,
    pub height: u32,
    pub has_labels: bool,
    pub ghost some: { 0 < columns },
    pub ghost few: { columns ≤ 10 },
    pub ghost low: { 40 < height },
    pub ghost high: { height < 200 },
}

// The layout of so many animals.
pub(crate) fn layout_of(animals: usize) -> Layout {
    let (columns, height) = match animals {
        0 | 1 => (1, 190),
        2 => (2, 170),
        3 => (3, 150),
        4..=12 => (4, 118),
        13..=40 => (6, 74),
        _ => (10, 42),
    };
    Layout {
        columns,
        height,
        has_labels: columns <= 4,
    }
}

impl Layout {
    // The room on the left of a curve.
    pub(crate) fn left(&self) -> u32
        ensures low { 4 ≤ result }
        ensures high { result ≤ 34 }
    {
        if self.has_labels { 34 } else { 4 }
    }

    // The room of the widths of all drawings beside each other, and that of their curves.
    pub(crate) fn width(&self) -> u32
        ensures { result ≤ 680 }
    {
        WIDTH - BETWEEN * self.columns
    }

    // Where their curves end, each from its own left on.
    pub(crate) fn end(&self) -> u32
        ensures { result ≤ 680 }
    {
        WIDTH - (BETWEEN + RIGHT) * self.columns
    }

    // How wide their curves are.
    pub(crate) fn across(&self) -> u32
        ensures { result ≤ 680 }
    {
        if self.has_labels {
            WIDTH - (BETWEEN + RIGHT + 34) * self.columns
        } else {
            WIDTH - (BETWEEN + RIGHT + 4) * self.columns
        }
    }

    // Where a curve begins, seen from above.
    pub(crate) fn bottom(&self) -> u32
        ensures low { 20 < result }
        ensures high { result < 200 }
    {
        if self.has_labels {
            self.height - 14
        } else {
            self.height - 4
        }
    }
}
