// The maps of the page.

ghost use Rattle.std.specs.Prelude.{◌≤◌, ◌^◌};

use crate::clusters::{Group, clusters};
use crate::drawing::push_map;
use crate::extent::Extent;
use crate::frame::{Frame, Size, frame_over};
use crate::land::{Ground, Plane};
use crate::scene::{Scene, Shape, extent_of_ring, extents_of, least};
use page_drawing::push_number;
use std::alloc::{AllocError, Global};

// How wide ranges have to be on the map to be seen well, and to be seen, in pixels.
const SEEN: u64 = 24;

const VISIBLE: u64 = 6;

// How many maps of groups there are at most.
const MOST_GROUPS: usize = 6;

/// Maps: the drawings, each on lines of its own, the numbers of animals that are too small to be seen on them, and whether the
/// boundary is on the first.
#[derive(Drop)]
pub struct Maps {
    pub drawings: Vec<u8>,
    pub unseen: Vec<u32>,
    pub has_boundary: bool,
}

// The size of the frame of all animals where it is alone.
fn size_of_all(animals: usize) -> Size {
    let highest = match animals {
        0..=12 => 400,
        13..=40 => 520,
        _ => 640,
    };
    Size {
        width: 664,
        lowest: 230,
        highest,
    }
}

// The size of the frame of all animals above those of groups, and of the frame of a group.
fn size_above() -> Size {
    Size {
        width: 664,
        lowest: 150,
        highest: 260,
    }
}

fn size_of_group() -> Size {
    Size {
        width: 318,
        lowest: 190,
        highest: 260,
    }
}

// Whether the range of an animal has an extent that is narrower in a frame than so many pixels.
fn is_narrow(scene: &Scene, frame: &Frame, member: usize, pixels: u64) -> bool
    requires { pixels ≤ 1000 }
{
    match scene.extent_at(member) {
        Some(extent) => 0 < extent.side() && frame.is_below(extent.side(), pixels),
        None => false,
    }
}

// Adds the numbers of animals that are not seen in a frame.
fn push_unseen(
    unseen: &mut Vec<u32>,
    scene: &Scene,
    frame: &Frame,
    members: &[usize],
) -> Result<(), AllocError> {
    for member in members {
        if let Some(shape) = scene.shapes.get(*member)
            && is_narrow(scene, frame, *member, VISIBLE)
        {
            unseen.push(shape.number)?;
        }
    }
    Ok(())
}

// Whether one of some animals is not seen well in a frame.
fn has_small(scene: &Scene, frame: &Frame, members: &[usize]) -> bool {
    members
        .iter()
        .any(|member| is_narrow(scene, frame, *member, SEEN))
}

// Whether a box meets the frame.
fn meets(frame: &Frame, extent: Extent) -> bool {
    let (low, high) = (frame.place_of(extent.low), frame.place_of(extent.high));
    low.x < frame.wide() && 0 < high.x && high.y < frame.high() && 0 < low.y
}

// Whether the box of a ring of the boundary meets the frame.
fn is_shown(frame: &Frame, boundary: &[Vec<Ground>]) -> bool {
    for ring in boundary {
        if let Some(extent) = extent_of_ring(ring)
            && meets(frame, extent)
        {
            return true;
        }
    }
    false
}

// Appends the numbers of animals with commas.
fn push_listed(text: &mut Vec<u8>, scene: &Scene, members: &[usize]) -> Result<(), AllocError> {
    for (place, member) in members.iter().enumerate() {
        if place > 0 {
            text.extend_from_slice(b", ")?;
        }
        push_number(text, u128::from(scene.number_at(*member)))?;
    }
    Ok(())
}

// Adds the map of a group.
fn push_group(maps: &mut Maps, scene: &Scene, group: &Group) -> Result<(), AllocError> {
    let frame = frame_over(group.extent, least(scene.plane.unit), size_of_group());
    push_unseen(&mut maps.unseen, scene, &frame, &group.members)?;
    let mut label = Vec::from_slice(scene.alloc, b"Map of the ranges ")?;
    push_listed(&mut label, scene, &group.members)?;
    maps.drawings.extend_from_slice(b"\n")?;
    push_map(
        &mut maps.drawings,
        &frame,
        scene,
        &group.members,
        &label,
        b"",
    )
}

// The map of all animals alone.
fn map_of_all(scene: &Scene, frame: &Frame, members: &[usize]) -> Result<Maps, AllocError> {
    let mut maps = Maps {
        drawings: Vec::new(scene.alloc),
        unseen: Vec::new(scene.alloc),
        has_boundary: is_shown(frame, scene.boundary),
    };
    push_map(
        &mut maps.drawings,
        frame,
        scene,
        members,
        b"Map of the ranges",
        scene.system,
    )?;
    push_unseen(&mut maps.unseen, scene, frame, members)?;
    Ok(maps)
}

// The map of all animals, and those of the groups that are too small on the map that all would have alone.
fn maps_of_groups(
    scene: &Scene,
    alone: &Frame,
    extent: Extent,
    members: &[usize],
    groups: &[Group],
) -> Result<Maps, AllocError> {
    let frame = frame_over(extent, least(scene.plane.unit), size_above());
    let mut maps = Maps {
        drawings: Vec::new(scene.alloc),
        unseen: Vec::new(scene.alloc),
        has_boundary: is_shown(&frame, scene.boundary),
    };
    push_map(
        &mut maps.drawings,
        &frame,
        scene,
        members,
        b"Map of all ranges",
        scene.system,
    )?;
    for group in groups {
        if has_small(scene, alone, &group.members) {
            push_group(&mut maps, scene, group)?;
        }
    }
    Ok(maps)
}

// The maps of animals over a box.
fn maps_over(scene: &Scene, members: &[usize], extent: Extent) -> Result<Maps, AllocError> {
    let frame = frame_over(extent, least(scene.plane.unit), size_of_all(members.len()));
    if !has_small(scene, &frame, members) {
        return map_of_all(scene, &frame, members);
    }
    let groups = clusters(scene, members)?;
    if groups.len() < 2 || groups.len() > MOST_GROUPS {
        return map_of_all(scene, &frame, members);
    }
    maps_of_groups(scene, &frame, extent, members, &groups)
}

// The maps of a scene.
fn maps_of(scene: &Scene) -> Result<Maps, AllocError> {
    let members = (0..scene.shapes.len()).collect(scene.alloc)?;
    let members: Vec<usize> = members;
    match scene.extent_of(&members) {
        Some(extent) => maps_over(scene, &members, scene.with_boundary(extent)),
        None => Ok(Maps {
            drawings: Vec::new(scene.alloc),
            unseen: Vec::new(scene.alloc),
            has_boundary: false,
        }),
    }
}

/// The map of all animals, and those of groups that are too small on it: animals in the order of their numbers, on a plane, the
/// rings of a boundary, none where there is no boundary, and the name of the reference system, as text. Where no animal has a
/// point, there is no map.
///
/// # Errors
///
/// Memory ran out.
pub fn draw_maps(
    alloc: Global,
    shapes: &[Shape],
    plane: Plane,
    boundary: &[Vec<Ground>],
    system: &[u8],
) -> Result<Maps, AllocError> {
    let extents = extents_of(alloc, plane, shapes)?;
    let scene = Scene {
        alloc,
        plane,
        shapes,
        extents: &extents,
        boundary,
        system,
    };
    maps_of(&scene)
}
