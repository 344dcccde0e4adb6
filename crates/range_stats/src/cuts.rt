// Indices of points in an order in which those that a level keeps come before all others.

ghost use Rattle.std.specs.Prelude.{◌≡◌, ◌+◌, ◌++◌, ◌≤◌, length, map, vec_capacity, vec_len};
ghost use Rattle.range_plane.specs.Fix.{fix_limit};
ghost use Rattle.range_stats.specs.Keys.{IsCutAdded, IsGreatestCut, index_in};
ghost use Rattle.range_stats.specs.Percent.{kept_count};

use crate::distances::index_in;
use std::alloc::Allocator;

// How many of `count` points a level keeps.
pub(crate) fn kept_count(level: u8, count: usize) -> usize
    requires { count ≤ fix_limit }
    ensures { result ≡ kept_count level count }
{
    (usize::from(level) * count + 99) / 100
}

// The most that one of the levels keeps of `count` points, of those that keep fewer than `limit`.
fn greatest_cut(levels: &[u8], count: usize, limit: usize) -> Option<usize>
    requires { count ≤ fix_limit }
    ensures { IsGreatestCut levels.now count limit result }
{
    let mut greatest: Option<usize> = None;
    for level in levels {
        let kept = kept_count(*level, count);
        if kept < limit && greatest.is_none_or(|other| other < kept) {
            greatest = Some(kept);
        }
    }
    greatest
}

// Adds the indices in the keys.
fn push_indices<A: Allocator>(indices: &mut Vec<u32, A>, keys: &[u128])
    requires room { vec_len indices.old + length keys.now ≤ vec_capacity indices.old }
    ensures items { indices.new.items ≡ indices.old.items ++ map index_in keys.now }
    ensures len { vec_len indices.new ≡ vec_len indices.old + length keys.now }
    ensures capacity { vec_capacity indices.new ≡ vec_capacity indices.old }
{
    for key in keys {
        indices.push_reserved(index_in(*key));
    }
}

// Adds the indices in the keys, cut at what each of the levels keeps of `count` points: the greatest level first, and
// each lower one within the keys that the one before it keeps.
pub(crate) fn push_cut<A: Allocator>(
    indices: &mut Vec<u32, A>,
    keys: &mut [u128],
    levels: &[u8],
    count: usize,
)
    requires few { count ≤ fix_limit }
    requires room { vec_len indices.old + length keys.old ≤ vec_capacity indices.old }
    ensures items { IsCutAdded levels.now count keys.old indices.old.items indices.new.items }
    ensures len { vec_len indices.new ≡ vec_len indices.old + length keys.old }
    ensures capacity { vec_capacity indices.new ≡ vec_capacity indices.old }
{
    let Some(kept) = greatest_cut(levels, count, keys.len()) else {
        push_indices(indices, keys);
        return;
    };
    let (nearest, key, others) = keys.select_nth_unstable(kept);
    push_cut(indices, nearest, levels, count);
    indices.push_reserved(index_in(*key));
    push_indices(indices, others);
}
