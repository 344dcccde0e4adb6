// The fixes, as few as cover the same.

ghost use Rattle.std.specs.Prelude.{◌*◌, ◌<◌, ◌≤◌, ◌^◌, IfSome};
ghost use Rattle.page_drawing.specs.Bounds.{IsWithin};

use crate::boundary::push_corner;
use crate::frame::Frame;
use crate::land::{Plane, ground_of};
use crate::place::Place;
use crate::scene::Scene;
use crate::times::{lengths, parts};
use page_drawing::push_colour;
use range_plane::Point;
use std::alloc::AllocError;

// How many fixes are drawn at most.
const FEW_DOTS: usize = 15_000;

// How many cells there are across and down: the least ones of a frame of 664 by 640 pixels are 443 by 427.
const SIDE: u128 = 512;

const CELLS: usize = 262_144;

// The greatest power of 3/2 that is a side of cells in pixels: greater than a frame.
const MOST_POWER: u32 = 17;

// A fix that is drawn, and whose it is.
#[derive(Clone, Copy)]
struct Dot {
    member: usize,
    at: Place,
}

// The side of a cell, as a quotient of units of the frame.
#[derive(Clone, Copy)]
struct Cell {
    part: u128,
    whole: u32,
    ghost some: { 0 < part },
    ghost most: { whole ≤ 2 ^ 17 },
}

// Powers of 2 and 3.
fn twos(power: u32) -> u32
    requires { power ≤ 17 }
    ensures { result ≤ 2 ^ 17 }
{
    2_u32.pow(power)
}

fn threes(power: u32) -> u32
    requires { power ≤ 17 }
    ensures some { 0 < result }
    ensures most { result ≤ 2 ^ 27 }
{
    3_u32.pow(power)
}

// The cell whose side is so great a power of 3/2, in pixels.
fn cell_of(frame: &Frame, power: u32) -> Cell
    requires { power ≤ 17 }
{
    Cell {
        part: 1000 * lengths(u64::from(threes(power)), frame.thousandth),
        whole: twos(power),
    }
}

// The number of the cell that a place is in across or down, from 0 on.
fn cell_along(cell: Cell, length: i128) -> Option<u128>
    requires { IsWithin (2 ^ 102) length }
    ensures { IfSome result (λ number. number < 512) }
{
    if length < 0 {
        return None;
    }
    let number = parts(length as u128, cell.whole) / cell.part;
    if number < SIDE { Some(number) } else { None }
}

// The number of a cell among all.
fn cell_at(cell: Cell, at: Place) -> Option<usize> {
    let column = cell_along(cell, at.x)?;
    let row = cell_along(cell, at.y)?;
    Some((row * SIDE + column) as usize)
}

// Keeps a fix that is the first of its animal in its cell. `last` has who had the last one in each.
fn keep_first(
    dots: &mut Vec<Dot>,
    last: &mut Vec<usize>,
    dot: Dot,
    cell: Cell,
) -> Result<(), AllocError> {
    let Some(index) = cell_at(cell, dot.at) else {
        return Ok(());
    };
    if index >= last.len() || last[index] == dot.member {
        return Ok(());
    }
    last[index] = dot.member;
    dots.push(dot)?;
    Ok(())
}

// By which cells fixes of a frame are thinned, and how many are kept at most.
#[derive(Clone, Copy)]
struct Sieve<'a> {
    frame: &'a Frame,
    plane: Plane,
    cell: Cell,
    most: usize,
}

// Keeps the fixes of an animal that are the first in their cells; whether that are not too many with those before.
fn thin_one(
    dots: &mut Vec<Dot>,
    last: &mut Vec<usize>,
    sieve: Sieve,
    fixes: &[Point],
    member: usize,
) -> Result<bool, AllocError> {
    for fix in fixes {
        let at = sieve.frame.place_of(ground_of(sieve.plane, *fix));
        keep_first(dots, last, Dot { member, at }, sieve.cell)?;
        if dots.len() > sieve.most {
            return Ok(false);
        }
    }
    Ok(true)
}

// The fixes of animals that are the first in their cells; none where they are too many.
fn thinned(scene: &Scene, members: &[usize], sieve: Sieve) -> Result<Option<Vec<Dot>>, AllocError> {
    let mut dots = Vec::new(scene.alloc);
    let mut last = vec![in scene.alloc; usize::MAX; CELLS]?;
    for member in members {
        if let Some(shape) = scene.shapes.get(*member)
            && !thin_one(&mut dots, &mut last, sieve, &shape.fixes, *member)?
        {
            return Ok(None);
        }
    }
    Ok(Some(dots))
}

// The sieve of a power of 3/2.
fn sieve_of<'a>(frame: &'a Frame, plane: Plane, power: u32, most: usize) -> Sieve<'a>
    requires { power ≤ 17 }
{
    Sieve {
        frame,
        plane,
        cell: cell_of(frame, power),
        most,
    }
}

// The fixes that are drawn, by the least cells for which they are few.
fn dots_of(frame: &Frame, scene: &Scene, members: &[usize]) -> Result<Vec<Dot>, AllocError> {
    for power in 1..MOST_POWER {
        let sieve = sieve_of(frame, scene.plane, power, FEW_DOTS);
        if let Some(dots) = thinned(scene, members, sieve)? {
            return Ok(dots);
        }
    }
    let greatest = sieve_of(frame, scene.plane, MOST_POWER, usize::MAX);
    match thinned(scene, members, greatest)? {
        Some(dots) => Ok(dots),
        None => Ok(Vec::new(scene.alloc)),
    }
}

// Ends the path of an animal, if one is begun.
fn push_end(text: &mut Vec<u8>, begun: Option<usize>) -> Result<(), AllocError> {
    if begun.is_some() {
        text.extend_from_slice(b"\"/>\n")
    } else {
        Ok(())
    }
}

// Begins the path of an animal, unless it is begun.
fn push_begin(
    text: &mut Vec<u8>,
    scene: &Scene,
    begun: Option<usize>,
    member: usize,
) -> Result<(), AllocError> {
    if begun == Some(member) {
        return Ok(());
    }
    push_end(text, begun)?;
    text.extend_from_slice(b"<path class=\"dots ")?;
    push_colour(text, scene.number_at(member))?;
    text.extend_from_slice(b"\" d=\"")
}

/// Appends the fixes of animals.
pub(crate) fn push_dots(
    text: &mut Vec<u8>,
    frame: &Frame,
    scene: &Scene,
    members: &[usize],
) -> Result<(), AllocError> {
    let mut begun = None;
    for dot in &dots_of(frame, scene, members)? {
        push_begin(text, scene, begun, dot.member)?;
        text.extend_from_slice(b"M")?;
        push_corner(text, frame, dot.at)?;
        text.extend_from_slice(b"h0")?;
        begun = Some(dot.member);
    }
    push_end(text, begun)
}
