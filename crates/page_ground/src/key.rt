// What lines and numbers of the map are.

use page_drawing::push_colour;
use page_map::STYLES;
use page_report::ReadAnimal;
use page_text::{push_named, push_whole};
use std::alloc::AllocError;

// How many animals have their names beside their numbers.
const MOST_IN_KEY: usize = 40;

// Appends the start of the drawing of a piece of a line.
fn push_piece(text: &mut Vec<u8>) -> Result<(), AllocError> {
    text.extend_from_slice(
        b"<span class=\"line\"><svg class=\"swatch\" viewBox=\"0 0 34 11\"><path class=\"",
    )
}

// Appends the rest of that drawing.
fn push_rest(text: &mut Vec<u8>) -> Result<(), AllocError> {
    text.extend_from_slice(b"\" d=\"M1 1H33V10H1Z\"/></svg>")
}

// Appends what the line of a level is, which is this one from the highest on.
fn push_level(text: &mut Vec<u8>, place: usize, level: u8) -> Result<(), AllocError> {
    push_piece(text)?;
    text.extend_from_slice(b"l")?;
    push_whole(text, (place % STYLES) as u128)?;
    text.extend_from_slice(b" c6")?;
    push_rest(text)?;
    push_whole(text, u128::from(level))?;
    text.extend_from_slice(b" % MCP</span>")
}

// Appends what the lines of levels are.
fn push_levels(text: &mut Vec<u8>, levels: &[u8]) -> Result<(), AllocError> {
    for (place, level) in levels.iter().enumerate() {
        push_level(text, place, *level)?;
        text.extend_from_slice(b"\n")?;
    }
    Ok(())
}

// Appends what the line of the boundary is.
fn push_boundary(text: &mut Vec<u8>, name: &[u8]) -> Result<(), AllocError> {
    push_piece(text)?;
    text.extend_from_slice(b"boundary")?;
    push_rest(text)?;
    push_named(text, name)?;
    text.extend_from_slice(b"</span>\n")
}

// Appends the number and the name of an animal.
fn push_animal(text: &mut Vec<u8>, number: u64, name: &[u8]) -> Result<(), AllocError> {
    text.extend_from_slice(b"<span><b class=\"")?;
    push_colour(text, number)?;
    text.extend_from_slice(b"\">")?;
    push_whole(text, u128::from(number))?;
    text.extend_from_slice(b"</b>&#160;")?;
    push_named(text, name)?;
    text.extend_from_slice(b"</span>")
}

// Appends the numbers and names of animals.
fn push_animals(text: &mut Vec<u8>, animals: &[ReadAnimal]) -> Result<(), AllocError> {
    for (place, animal) in animals.iter().enumerate() {
        if place > 0 {
            text.extend_from_slice(b"\n")?;
        }
        push_animal(text, (place as u64).saturating_add(1), &animal.name)?;
    }
    Ok(())
}

/// Appends what lines and numbers of the map are: of levels from the highest on, of a boundary by its name, and of animals.
///
/// # Errors
///
/// Memory ran out.
pub fn push_key(
    text: &mut Vec<u8>,
    levels: &[u8],
    boundary: Option<&[u8]>,
    animals: &[ReadAnimal],
) -> Result<(), AllocError> {
    push_levels(text, levels)?;
    if let Some(name) = boundary {
        push_boundary(text, name)?;
    }
    if animals.len() > MOST_IN_KEY {
        text.extend_from_slice(b"<span>Numbers are those of the table.</span>")
    } else {
        push_animals(text, animals)
    }
}
