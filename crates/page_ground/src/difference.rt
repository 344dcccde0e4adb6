// By how much areas on a grid differ from those on the ellipsoid.

ghost use Rattle.std.specs.Prelude.{◌≤◌, ◌<◌};

use page_text::{Places, push_fixed};
use std::alloc::AllocError;

// How far from the middle of a zone the areal scale is known, in halves of a millimetre: 1,000 km.
const FARTHEST: u64 = 2_000_000_000;

// Numbers are counted in these parts of one.
const PARTS: u128 = 1_000_000_000_000_000;

// The mean radius of the Earth, 6,371,008.8 m, times the scale in the middle of a zone, 0.9996, in hundredths of a half of a
// millimetre.
const RADIUS: u128 = 1_273_692_079_296;

// The most that the square of a distance over that radius is, in parts.
const MOST_SQUARE: u128 = 25_000_000_000_000;

// The square of the scale in the middle of a zone, in parts of WHOLE.
const MIDDLE: u128 = 99_920_016;

const WHOLE: u128 = 100_000_000;

/// By how much areas on a grid differ from those on the ellipsoid, in hundredths of a per cent.
#[derive(Clone, Copy, PartialEq, Eq, Debug)]
pub struct Difference {
    pub is_less: bool,
    pub hundredths: u32,
}

/// The least and the greatest difference of some places.
#[derive(Clone, Copy, PartialEq, Eq, Debug)]
pub struct Differences {
    pub least: Difference,
    pub most: Difference,
}

// The square of a distance, in halves of a millimetre, over the radius, in parts.
fn square_of(distance: u64) -> u128
    requires { distance ≤ 2000000000 }
    ensures { result ≤ 25000000000000 }
{
    let distance = u128::from(distance);
    (distance * distance * 10_000 * PARTS / (RADIUS * RADIUS)).min(MOST_SQUARE)
}

// The next term of a series, of which each is the one before it times four times the square over a divisor.
fn next_term(term: u128, square: u128, divisor: u128) -> u128
    requires term { term ≤ 25000000000000 }
    requires square { square ≤ 25000000000000 }
    requires least { 12 ≤ divisor }
    requires most { divisor ≤ 90 }
    ensures { result ≤ 25000000000000 }
{
    (4 * term * square / (PARTS * divisor)).min(MOST_SQUARE)
}

// The square of the hyperbolic sine of a number, of which the square is given, by its series.
fn sinh_squared(square: u128) -> u128
    requires { square ≤ 25000000000000 }
    ensures { result ≤ 125000000000000 }
{
    let second = next_term(square, square, 12);
    let third = next_term(second, square, 30);
    let fourth = next_term(third, square, 56);
    let fifth = next_term(fourth, square, 90);
    square + second + third + fourth + fifth
}

// The difference of an areal scale from one, which is a part of WHOLE, rounded to hundredths of a per cent, halves away from zero.
fn difference_of(scale: u128) -> Difference
    requires { scale ≤ 200000000000000000000000 }
{
    let one = PARTS * WHOLE;
    let hundredths = (20_000 * scale.abs_diff(one) + one) / (2 * one);
    Difference {
        is_less: scale < one && hundredths > 0,
        hundredths: hundredths.min(1_000_000) as u32,
    }
}

/// By how much areas on the grid of a UTM zone differ from those on the ellipsoid at a distance from the middle of the zone, in halves
/// of a millimetre: by the areal scale of the transverse Mercator projection of the sphere, the square of 0.9996 times the hyperbolic
/// cosine of the distance over 0.9996 times the mean radius. `None` more than 1,000 km from the middle.
pub fn difference_of_utm(distance: u64) -> Option<Difference> {
    if distance > FARTHEST {
        return None;
    }
    let squared = PARTS + sinh_squared(square_of(distance));
    Some(difference_of(MIDDLE * squared))
}

impl Difference {
    /// Appends the difference in per cent, with its sign and two places.
    ///
    /// # Errors
    ///
    /// Memory ran out.
    pub fn push(self, text: &mut Vec<u8>) -> Result<(), AllocError> {
        let sign: &[u8] = match self {
            Difference { hundredths: 0, .. } => b"",
            Difference { is_less: true, .. } => b"-",
            Difference { is_less: false, .. } => b"+",
        };
        text.extend_from_slice(sign)?;
        push_fixed(text, u128::from(self.hundredths), 100, Places::Hundredths)
    }
}
