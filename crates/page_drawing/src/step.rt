// Steps of axes and grids.

ghost use Rattle.std.specs.Prelude.{◌≡◌, ◌*◌, ◌<◌, ◌≤◌, ◌^◌, nat_le};
ghost use Rattle.page_drawing.specs.Steps.{IsLeastStep, first_digit, size_at, step_count};

/// How many steps there are: 1, 2 and 5 times each power of ten from a thousandth to 10^11.
pub const STEPS: u8 = 45;

/// The distance from one line of a grid to the next, by its place among the steps, of which the first is a thousandth.
#[derive(Clone, Copy)]
pub struct Step {
    pub place: u8,
    pub ghost within: { place < 45 },
}

// The first digit of a step.
fn first_digit(rest: u8) -> u64
    ensures value { result ≡ first_digit rest }
    ensures some { 0 < result }
    ensures most { result ≤ 5 }
{
    match rest {
        0 => 1,
        1 => 2,
        _ => 5,
    }
}

/// A step in thousandths.
#[tactic(auto, unfolding(crate::specs::Steps::size_at))]
pub fn size_of(step: Step) -> u64
    ensures value { result ≡ size_at step.place }
    ensures some { 0 < result }
    ensures most { result ≤ 5 * 10 ^ 14 }
{
    first_digit(step.place % 3) * 10_u64.pow(u32::from(step.place / 3))
}

// Whether a span has at most so many of a step.
fn spans(part: u128, whole: u32, most: u8, step: Step) -> bool
    ensures { result ≡ nat_le part (most * size_at step.place * whole) }
{
    part <= u128::from(most) * u128::from(size_of(step)) * u128::from(whole)
}

/// The least step of which a span has at most so many; the greatest where it has more of each. The span is a quotient, in
/// thousandths.
pub fn step_of(part: u128, whole: u32, most: u8) -> Step
    ensures { IsLeastStep part whole most result.place }
{
    for place in 0..STEPS - 1 {
        let step = Step { place };
        if spans(part, whole, most, step) {
            return step;
        }
    }
    Step { place: STEPS - 1 }
}
