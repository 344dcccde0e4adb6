// The order in which animals come.

ghost use Rattle.std.specs.Prelude.{◌≡◌, IfOk};
ghost use Rattle.split_said.specs.Order.{animals_in_order};

use range_plane::OutOfMemory;
use split_tracks::Fate;
use std::alloc::Global;

/// The animals that have tracks, of so many, in the order of the first records of their tracks.
///
/// # Errors
///
/// Memory ran out.
pub fn animals_in_order(
    alloc: Global,
    fates: &[Fate],
    animals: usize,
) -> Result<Vec<u32>, OutOfMemory>
    ensures { IfOk result (λ order. order.items ≡ animals_in_order animals fates.now) }
{
    let mut met = vec![in alloc; false; animals]?;
    let mut order = Vec::new(alloc);
    for fate in fates {
        if let Fate::InTrack { animal, .. } = *fate {
            if (animal as usize) < animals && !met[animal as usize] {
                met[animal as usize] = true;
                order.push(animal)?;
            }
        }
    }
    Ok(order)
}
