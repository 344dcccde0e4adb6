// Places in a frame.

ghost use Rattle.std.specs.Prelude.{◌^◌};
ghost use Rattle.page_drawing.specs.Bounds.{IsWithin};

// The place of a point, from the first corner of the frame above on the left, in units of the frame.
#[derive(Clone, Copy)]
pub(crate) struct Place {
    pub x: i128,
    pub y: i128,
    pub ghost x_within: { IsWithin (2 ^ 102) x },
    pub ghost y_within: { IsWithin (2 ^ 102) y },
}

// A place near one of a point.
#[derive(Clone, Copy)]
pub(crate) struct Near {
    pub x: i128,
    pub y: i128,
    pub ghost x_within: { IsWithin (2 ^ 104) x },
    pub ghost y_within: { IsWithin (2 ^ 104) y },
}

impl Place {
    // The same place, moved by nothing.
    pub(crate) fn near(self) -> Near {
        Near {
            x: self.x,
            y: self.y,
        }
    }
}
