// Groups of animals whose ranges lie no farther from each other than they are wide.

use crate::extent::Extent;
use crate::scene::Scene;
use std::alloc::AllocError;

// A box, and whose ranges are in it.
#[derive(Drop)]
pub(crate) struct Group {
    pub extent: Extent,
    pub members: Vec<usize>,
}

// Whether two boxes overlap, each with half its longer side around it, and a metre for what is a point.
fn are_near(one: Extent, other: Extent) -> bool {
    let more = one.side() + other.side() + 4000;
    overlap(
        one.low.east,
        one.high.east,
        other.low.east,
        other.high.east,
        more,
    ) && overlap(
        one.low.north,
        one.high.north,
        other.low.north,
        other.high.north,
        more,
    )
}

// Whether two stretches overlap that are both longer than these, by so many half units at one end of each.
fn overlap(low: i64, high: i64, other_low: i64, other_high: i64, more: u64) -> bool {
    let more = i128::from(more);
    2 * i128::from(low) < 2 * i128::from(other_high) + more
        && 2 * i128::from(other_low) < 2 * i128::from(high) + more
}

// Takes the groups that are near into another; whether there was one.
fn absorb(groups: &mut Vec<Group>, group: &mut Group) -> Result<bool, AllocError> {
    let (mut place, mut has_grown) = (0, false);
    for _group in 0..groups.len() {
        if place < groups.len() && are_near(groups[place].extent, group.extent) {
            let near = groups.remove(place);
            group.members.extend_from_slice(&near.members)?;
            group.extent = group.extent.with(near.extent);
            has_grown = true;
        } else {
            place = place.saturating_add(1);
        }
    }
    Ok(has_grown)
}

// Puts a group behind others, with those that are near to it or become so.
fn push_group(groups: &mut Vec<Group>, group: Group) -> Result<(), AllocError> {
    let mut own = group;
    for _turn in 0..groups.len() {
        if !absorb(groups, &mut own)? {
            break;
        }
    }
    groups.push(own)?;
    Ok(())
}

// The groups of animals.
fn groups_of(scene: &Scene, members: &[usize]) -> Result<Vec<Group>, AllocError> {
    let mut groups = Vec::new(scene.alloc);
    for member in members {
        if let Some(extent) = scene.extent_at(*member) {
            let members = Vec::from_slice(scene.alloc, &[*member])?;
            push_group(&mut groups, Group { extent, members })?;
        }
    }
    Ok(groups)
}

/// The groups of animals, each with its members in their order.
pub(crate) fn clusters(scene: &Scene, members: &[usize]) -> Result<Vec<Group>, AllocError> {
    let mut groups = groups_of(scene, members)?;
    for group in groups.iter_mut() {
        group.members.sort()?;
    }
    Ok(groups)
}
