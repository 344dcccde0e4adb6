// The room of a curve in its drawing, from no fix and no area to all.

ghost use Rattle.std.specs.Prelude.{◌*◌, ◌<◌, ◌≤◌, ◌^◌};

use crate::layout::Layout;
use page_drawing::{Pixels, Spot};

// The room above a curve.
pub(crate) const ABOVE: u32 = 6;

// A number of fixes and a doubled area, in a layout.
#[derive(Clone, Copy)]
pub(crate) struct Axes {
    pub layout: Layout,
    pub fixes: u64,
    pub area2: u64,
    pub ghost some_fixes: { 0 < fixes },
    pub ghost some_area: { 0 < area2 },
}

// The axes of so many fixes and so much area, each at least 1.
pub(crate) fn axes_of(layout: Layout, fixes: u64, area2: u64) -> Axes {
    Axes {
        layout,
        fixes: fixes.max(1),
        area2: area2.max(1),
    }
}

// So many lengths.
fn times(count: u32, length: u128) -> u128
    requires count { count ≤ 1000 }
    requires length { length ≤ 2 ^ 90 }
    ensures most { result ≤ 1000 * length }
    ensures some { 0 < count → 0 < length → 0 < result }
{
    u128::from(count) * length
}

impl Axes {
    // How far across the fix of a number is.
    pub(crate) fn x(&self, fix: u64) -> Pixels {
        let whole = times(self.layout.columns, u128::from(self.fixes));
        let from = times(self.layout.left(), whole);
        let part = from + times(self.layout.across(), u128::from(fix));
        Pixels {
            part: part as i128,
            whole,
        }
    }

    // How far down a share of the area is, and so many pixels below it.
    pub(crate) fn y(&self, part: u128, whole: u128, below: u32) -> Pixels
        requires some { 0 < whole }
        requires part { part ≤ 2 ^ 90 }
        requires whole { whole ≤ 2 ^ 90 }
        requires below { below ≤ 10 }
    {
        let bottom = self.layout.bottom();
        let down = times(bottom + below, whole) as i128;
        let up = times(bottom - ABOVE, part) as i128;
        Pixels {
            part: down - up,
            whole,
        }
    }

    // The spot of an area after a fix. An area above that of all is drawn as that.
    pub(crate) fn spot(&self, fix: u64, area2: u64) -> Spot {
        let area2 = area2.min(self.area2);
        Spot {
            x: self.x(fix),
            y: self.y(u128::from(area2), u128::from(self.area2), 0),
        }
    }

    // Where the axis of fixes ends.
    pub(crate) fn end(&self) -> Pixels {
        Pixels {
            part: i128::from(self.layout.end()),
            whole: u128::from(self.layout.columns),
        }
    }

    // How wide a drawing is.
    pub(crate) fn width(&self) -> Pixels {
        Pixels {
            part: i128::from(self.layout.width()),
            whole: u128::from(self.layout.columns),
        }
    }
}
