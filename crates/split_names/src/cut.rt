// Names cut to so many bytes, by whole characters.

ghost use Rattle.std.specs.Prelude.{◌≡◌, ◌&&◌, nat_le, nat_lt, slice_index};
ghost use Rattle.split_names.specs.Cut.{cut, cut_place, is_inside};

use std::alloc::Allocator;

// How many bytes a character of UTF-8 may have behind its first.
const BYTES_BEHIND: usize = 3;

// Whether the byte at a place, where there is one, is not the first of its character.
fn is_inside(bytes: &[u8], place: usize) -> bool
    ensures { result ≡ is_inside (slice_index bytes.now place) }
{
    match bytes.get(place) {
        Some(byte) => 0x80 <= *byte && *byte < 0xC0,
        None => false,
    }
}

// The place at which bytes are cut to at most so many.
fn cut_place(bytes: &[u8], most: usize) -> usize
    ensures { result ≡ cut_place bytes.now 3 most }
{
    let mut place = most;
    for _back in 0..BYTES_BEHIND {
        if !is_inside(bytes, place) {
            return place;
        }
        place = place.saturating_sub(1);
    }
    place
}

// Cuts a name to at most so many bytes, by whole characters.
#[tactic(auto, unfolding(crate::specs::Cut::cut))]
pub(crate) fn cut<A: Allocator>(name: &mut Vec<u8, A>, most: usize)
    ensures { name.new.items ≡ cut most name.old.items }
{
    name.truncate(cut_place(name, most));
}
