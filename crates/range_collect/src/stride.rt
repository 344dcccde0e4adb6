// Which files a line has.

ghost use Rattle.range_collect.specs.LineFiles.{IsStride};

// The first file of a line, and the step from each to the next.
#[derive(Clone, Copy)]
pub(crate) struct Stride {
    pub first: u32,
    pub step: u32,
    pub ghost within: { IsStride first step },
}
