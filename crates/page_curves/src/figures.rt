// The drawings of all animals.

use crate::aid::push_aid;
use crate::axes::{ABOVE, Axes, axes_of};
use crate::caption::push_caption;
use crate::curve::{Curve, last_area};
use crate::labels::push_labels;
use crate::layout::{Layout, layout_of};
use crate::steps::push_steps;
use page_drawing::{Pixels, push_colour, push_number, push_place, push_svg};
use page_facts::Facts;
use page_report::ReadAnimal;
use range_plane::Scale;
use std::alloc::AllocError;

// Appends the two axes.
fn push_rim(text: &mut Vec<u8>, axes: &Axes) -> Result<(), AllocError> {
    text.extend_from_slice(b"<path class=\"axes\" d=\"M")?;
    push_place(text, Pixels::new(axes.layout.left()))?;
    text.extend_from_slice(b" ")?;
    push_place(text, Pixels::new(ABOVE))?;
    text.extend_from_slice(b"V")?;
    push_place(text, Pixels::new(axes.layout.bottom()))?;
    text.extend_from_slice(b"H")?;
    push_place(text, axes.end())?;
    text.extend_from_slice(b"\"/>\n")
}

// Appends the curve of an animal.
fn push_curve(text: &mut Vec<u8>, axes: &Axes, curve: Curve) -> Result<(), AllocError> {
    text.extend_from_slice(b"<path class=\"curve ")?;
    push_colour(text, curve.number)?;
    text.extend_from_slice(b"\" d=\"")?;
    push_steps(text, axes, curve.rows)?;
    text.extend_from_slice(b"\"/>\n")
}

// Appends the start of the drawing of an animal.
fn push_start(text: &mut Vec<u8>, axes: &Axes, number: u64) -> Result<(), AllocError> {
    let mut label = Vec::from_slice(*text.allocator(), b"Area of animal ")?;
    push_number(&mut label, u128::from(number))?;
    label.extend_from_slice(b" after each fix")?;
    let height = Pixels::new(axes.layout.height);
    push_svg(text, b"small", axes.width(), height, &label)
}

// Appends the drawing of an animal.
fn push_drawing(
    text: &mut Vec<u8>,
    curve: Curve,
    layout: Layout,
    unit: Scale,
) -> Result<(), AllocError> {
    let area2 = last_area(curve.rows);
    let axes = axes_of(layout, curve.rows.len() as u64, area2);
    push_start(text, &axes, curve.number)?;
    if layout.has_labels {
        push_labels(text, &axes, unit, area2 > 0)?;
    }
    push_rim(text, &axes)?;
    push_curve(text, &axes, curve)?;
    push_aid(text, &axes, curve.number, curve.within)?;
    text.extend_from_slice(b"</svg>")
}

// Appends the drawing of an animal with what stands above it.
fn push_figure(
    text: &mut Vec<u8>,
    curve: Curve,
    layout: Layout,
    unit: Scale,
) -> Result<(), AllocError> {
    text.extend_from_slice(b"<figure class=\"of")?;
    push_number(text, u128::from(layout.columns))?;
    text.extend_from_slice(b"\"><figcaption>")?;
    push_caption(text, curve, layout.columns, unit)?;
    text.extend_from_slice(b"</figcaption>\n")?;
    push_drawing(text, curve, layout, unit)?;
    text.extend_from_slice(b"</figure>")
}

// What is drawn of an animal at a place.
fn curve_of<'a>(animal: &'a ReadAnimal, place: usize, facts: Option<&Facts>) -> Curve<'a> {
    Curve {
        number: (place as u64).saturating_add(1),
        name: &animal.name,
        rows: &animal.rows,
        within: facts.and_then(|own| own.growth.within),
    }
}

/// Appends the drawings of animals, numbered from 1 on, each on lines of its own: of each animal the area after each fix, from
/// the rows of a report, and with its facts the line at 95 per cent.
///
/// # Errors
///
/// Memory ran out.
pub fn push_curves(
    text: &mut Vec<u8>,
    animals: &[ReadAnimal],
    facts: &[Facts],
    unit: Scale,
) -> Result<(), AllocError> {
    let layout = layout_of(animals.len());
    for (place, animal) in animals.iter().enumerate() {
        if place > 0 {
            text.extend_from_slice(b"\n")?;
        }
        push_figure(
            text,
            curve_of(animal, place, facts.get(place)),
            layout,
            unit,
        )?;
    }
    Ok(())
}
