// Tests of places, steps, values and colours. Places are quotients that were rounded by hand; steps and values are those of
// `step_of` and `Step.text` of drawing.py.

use page_drawing::{
    Pixels, STEPS, Spot, Step, push_colour, push_line, push_place, push_svg, push_text, push_value,
    size_of, step_of,
};
use std::alloc::AllocError;

// Quotients, as places.
const PLACES: [(i64, u64, &str); 13] = [
    (0, 7, "0.0"),
    (1, 20, "0.1"),
    (1, 21, "0.0"),
    (-1, 20, "0.0"),
    (-1, 19, "-0.1"),
    (-3, 20, "-0.1"),
    (-31, 200, "-0.2"),
    (7, 2, "3.5"),
    (49, 80, "0.6"),
    (999_949, 1_000, "999.9"),
    (99_995, 100, "1000.0"),
    (-1_234_567, 10, "-123456.7"),
    (1_234_567, 10, "123456.7"),
];

// Spans in thousandths, how many of a step they may have, and that step in thousandths.
const SPANS: [(u64, u32, u8, u64); 9] = [
    (0, 1, 1, 1),
    (5, 1, 5, 1),
    (11, 2, 5, 2),
    (12_000, 1, 4, 5_000),
    (8_000_000, 1, 4, 2_000_000),
    (8_000_001, 1, 4, 5_000_000),
    (5_600_000_000, 7, 5, 200_000_000),
    (90_000_000, 9, 1, 10_000_000),
    (u64::MAX, 1, 1, 500_000_000_000_000),
];

// Steps by their places, how many, and how that is written.
const VALUES: [(u8, i64, &str); 10] = [
    (9, 0, "0"),
    (9, 7, "7"),
    (11, 3, "15"),
    (19, 900, "1,800,000"),
    (18, -12, "-12,000"),
    (8, 5, "2.5"),
    (5, 3, "0.15"),
    (2, 3, "0.015"),
    (0, -1_234_567, "-1,234.567"),
    (44, 1, "500,000,000,000"),
];

// Whether a text was written, and is this one.
fn is_written(text: &[u8], pushed: Result<(), AllocError>, expected: &str) -> bool {
    pushed.is_ok() && text == expected.as_bytes()
}

#[test]
fn places_are_rounded_once(rt: HostRuntime) {
    for (part, whole, expected) in PLACES {
        let mut text = Vec::new(rt.alloc());
        let pixels = Pixels {
            part: i128::from(part),
            whole: u128::from(whole.max(1)),
        };
        let pushed = push_place(&mut text, pixels);
        assert!(rt; is_written(&text, pushed, expected), "{part} of {whole}");
    }
}

#[test]
fn steps_are_the_least(rt: HostRuntime) {
    for (part, whole, most, expected) in SPANS {
        let step = step_of(u128::from(part), whole, most);
        assert!(rt; size_of(step) == expected, "{part} of {whole}");
    }
}

#[test]
fn values_have_commas_and_decimals(rt: HostRuntime) {
    for (place, count, expected) in VALUES {
        let mut text = Vec::new(rt.alloc());
        let step = Step {
            place: place.min(STEPS - 1),
        };
        let pushed = push_value(&mut text, step, count);
        assert!(rt; is_written(&text, pushed, expected), "{count} of {place}");
    }
}

#[test]
fn colours_come_again(rt: HostRuntime) {
    for (number, expected) in [(1, "c0"), (2, "c1"), (7, "c6"), (8, "c0"), (130, "c3")] {
        let mut text = Vec::new(rt.alloc());
        let pushed = push_colour(&mut text, number);
        assert!(rt; is_written(&text, pushed, expected), "{number}");
    }
}

// A drawing of one line and one text.
fn push_all(text: &mut Vec<u8>) -> Result<(), AllocError> {
    let (from, to) = (
        Spot {
            x: Pixels::new(1),
            y: Pixels::new(2),
        },
        Spot {
            x: Pixels::new(30),
            y: Pixels::new(4),
        },
    );
    push_svg(text, b"small", Pixels::new(40), Pixels::new(9), b"A line")?;
    push_line(text, from, to, b" class=\"aid\"")?;
    push_text(text, to)
}

#[test]
fn pieces_have_their_places(rt: HostRuntime) {
    let mut text = Vec::new(rt.alloc());
    let pushed = push_all(&mut text);
    let expected =
        "<svg class=\"small\" viewBox=\"0 0 40.0 9.0\" role=\"img\" aria-label=\"A line\">\n\
        <path d=\"M1.0 2.0L30.0 4.0\" class=\"aid\"/><text x=\"30.0\" y=\"4.0\"";
    assert!(rt; is_written(&text, pushed, expected), "pieces");
}
