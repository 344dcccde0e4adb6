// Frames of drawings over boxes of the ground.

ghost use Rattle.std.specs.Prelude.{◌<◌, ◌≤◌, ◌^◌};
ghost use Rattle.page_drawing.specs.Bounds.{IsWithin};

use crate::extent::Extent;
use crate::land::Ground;
use crate::place::Place;
use crate::times::{lengths, times};
use page_drawing::{Pixels, Spot};

// How wide a frame is and between which heights, in pixels.
#[derive(Clone, Copy)]
pub(crate) struct Size {
    pub width: u64,
    pub lowest: u64,
    pub highest: u64,
    pub ghost width_some: { 0 < width },
    pub ghost width_most: { width ≤ 1000 },
    pub ghost lowest_most: { lowest ≤ 1000 },
    pub ghost highest_some: { 0 < highest },
    pub ghost highest_most: { highest ≤ 1000 },
}

// A frame. What it shows is 28/25 of the box wide, or so high where the height is limited. Lengths in it are counted in a unit so
// small that a pixel, a thousandth of one and a millimetre of the ground are whole numbers of it: where a box of so many
// millimetres is to be so many pixels wide, a thousandth of a pixel is 56 units a millimetre, and half a millimetre is 25,000
// units a pixel.
#[derive(Clone, Copy)]
pub(crate) struct Frame {
    // Its width in pixels.
    pub width: u64,
    // The sums of the coordinates of both corners of the box.
    pub middle_east: i64,
    pub middle_north: i64,
    // How many units half a millimetre of the ground has, and a thousandth of a pixel.
    pub grain: u64,
    pub thousandth: u64,
    // Half the width and half the height, in units.
    pub half_width: u128,
    pub half_height: u128,
    pub ghost width_most: { width ≤ 1000 },
    pub ghost east_within: { IsWithin (2 ^ 43) middle_east },
    pub ghost north_within: { IsWithin (2 ^ 43) middle_north },
    pub ghost grain_some: { 0 < grain },
    pub ghost grain_most: { grain ≤ 2 ^ 25 },
    pub ghost thousandth_some: { 0 < thousandth },
    pub ghost thousandth_most: { thousandth ≤ 2 ^ 50 },
    pub ghost half_width_most: { half_width ≤ 2 ^ 100 },
    pub ghost half_height_most: { half_height ≤ 2 ^ 100 },
}

// Which height a frame has: that of its box, or one of both limits.
#[derive(Clone, Copy)]
enum Height {
    Lowest,
    Own,
    Highest,
}

// The height of a frame over a box that is so wide and so high.
fn height_of(size: Size, wide: u64, high: u64) -> Height
    requires wide { wide ≤ 2 ^ 44 }
    requires high { high ≤ 2 ^ 44 }
{
    let own = lengths(size.width, high);
    if own < lengths(size.lowest, wide) {
        Height::Lowest
    } else if own > lengths(size.highest, wide) {
        Height::Highest
    } else {
        Height::Own
    }
}

// Half that height in units.
fn half_height_of(size: Size, height: Height, wide: u64, high: u64) -> u128
    requires wide { wide ≤ 2 ^ 44 }
    requires high { high ≤ 2 ^ 44 }
    ensures { result ≤ 2 ^ 100 }
{
    match height {
        Height::Lowest => lengths(500 * size.lowest, 56 * wide),
        Height::Own => lengths(28_000 * size.width, high),
        Height::Highest => lengths(500 * size.highest, 56 * high),
    }
}

// How many pixels the side has that limits the scale.
fn pixels_of(size: Size, height: Height) -> u64
    ensures some { 0 < result }
    ensures most { result ≤ 1000 }
{
    match height {
        Height::Highest => size.highest,
        _ => size.width,
    }
}

// How long it is on the ground.
fn length_of(height: Height, wide: u64, high: u64) -> u64
    requires wide_some { 0 < wide }
    requires wide_most { wide ≤ 2 ^ 44 }
    requires high_some { 0 < high }
    requires high_most { high ≤ 2 ^ 44 }
    ensures some { 0 < result }
    ensures most { result ≤ 2 ^ 44 }
{
    match height {
        Height::Highest => high,
        _ => wide,
    }
}

// A frame over a box that is not narrower than so much.
pub(crate) fn frame_over(extent: Extent, least: u64, size: Size) -> Frame
    requires some { 0 < least }
    requires most { least ≤ 2 ^ 44 }
{
    let (wide, high) = (extent.width().max(least), extent.height().max(least));
    let height = height_of(size, wide, high);
    let thousandth = 56 * length_of(height, wide, high);
    Frame {
        width: size.width,
        middle_east: extent.middle_east(),
        middle_north: extent.middle_north(),
        grain: 25_000 * pixels_of(size, height),
        thousandth,
        half_width: lengths(500 * size.width, thousandth),
        half_height: half_height_of(size, height, wide, high),
    }
}

impl Frame {
    // How far across an easting is, of which twice the millimetres are given.
    pub(crate) fn across(&self, east2: i64) -> i128
        requires { IsWithin (2 ^ 43) east2 }
        ensures { IsWithin (2 ^ 102) result }
    {
        self.half_width as i128 + times(east2 - self.middle_east, self.grain)
    }

    // How far down a northing is.
    pub(crate) fn down(&self, north2: i64) -> i128
        requires { IsWithin (2 ^ 43) north2 }
        ensures { IsWithin (2 ^ 102) result }
    {
        self.half_height as i128 - times(north2 - self.middle_north, self.grain)
    }

    // The place of a point.
    pub(crate) fn place_of(&self, at: Ground) -> Place {
        Place {
            x: self.across(2 * at.east),
            y: self.down(2 * at.north),
        }
    }

    // So many thousandths of a pixel.
    pub(crate) fn thousandths(&self, count: i64) -> i128
        requires { IsWithin (2 ^ 50) count }
        ensures { IsWithin (2 ^ 100) result }
    {
        times(count, self.thousandth)
    }

    // So many pixels.
    pub(crate) fn pixels(&self, count: i64) -> i128
        requires { IsWithin (2 ^ 40) count }
        ensures { IsWithin (2 ^ 100) result }
    {
        times(1000 * count, self.thousandth)
    }

    // Its width and its height in units.
    pub(crate) fn wide(&self) -> i128
        ensures { IsWithin (2 ^ 101) result }
    {
        2 * self.half_width as i128
    }

    pub(crate) fn high(&self) -> i128
        ensures { IsWithin (2 ^ 101) result }
    {
        2 * self.half_height as i128
    }

    // A length as pixels.
    pub(crate) fn length(&self, length: i128) -> Pixels
        requires { IsWithin (2 ^ 106) length }
    {
        Pixels {
            part: length,
            whole: 1000 * u128::from(self.thousandth),
        }
    }

    // A place as a spot of the drawing.
    pub(crate) fn spot(&self, x: i128, y: i128) -> Spot
        requires x { IsWithin (2 ^ 106) x }
        requires y { IsWithin (2 ^ 106) y }
    {
        Spot {
            x: self.length(x),
            y: self.length(y),
        }
    }

    // Whether a length on the ground is narrower than so many pixels in the frame.
    pub(crate) fn is_below(&self, side: u64, pixels: u64) -> bool
        requires side { side ≤ 2 ^ 43 }
        requires pixels { pixels ≤ 1000 }
    {
        2 * lengths(side, self.grain) < 1000 * lengths(pixels, self.thousandth)
    }
}
