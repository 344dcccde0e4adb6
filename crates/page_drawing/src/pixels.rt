// Numbers of pixels.

ghost use Rattle.std.specs.Prelude.{◌≡◌, ◌<◌, ◌≤◌, ◌^◌, pos};
ghost use Rattle.page_drawing.specs.Bounds.{IsWithin};

/// A number of pixels, exactly: a quotient of whole numbers up to 2^110.
#[derive(Clone, Copy)]
pub struct Pixels {
    pub part: i128,
    pub whole: u128,
    pub ghost within: { IsWithin (2 ^ 110) part },
    pub ghost some: { 0 < whole },
    pub ghost most: { whole ≤ 2 ^ 110 },
}

impl Pixels {
    /// A whole number of pixels.
    pub fn new(count: u32) -> Self
        ensures part { result.part ≡ pos count }
        ensures whole { result.whole ≡ 1 }
    {
        Pixels {
            part: i128::from(count),
            whole: 1,
        }
    }
}

/// A spot of a drawing, from its first corner above on the left: across and down.
#[derive(Clone, Copy)]
pub struct Spot {
    pub x: Pixels,
    pub y: Pixels,
}
