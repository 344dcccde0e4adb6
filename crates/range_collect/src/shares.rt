// Files go to lines in turn: file i goes to line i % n of n lines, where i / n files come before it.

ghost use Rattle.std.specs.Prelude.{◌≡◌, ◌<◌, [], All, IfOk, map, vec_len};
ghost use Rattle.std.specs.Vec.Iter.{into_iter_items};
ghost use Rattle.range_collect.specs.Shares.{AreDealt, AreSharesOf};

use range_plane::OutOfMemory;
use std::alloc::Allocator;
use std::vec::IntoIter;

// So many shares with nothing in them.
fn empty_shares<T: Drop, A: Allocator + Copy>(
    alloc: A,
    count: usize,
) -> Result<Vec<Vec<T, A>, A>, OutOfMemory>
    ensures count { IfOk result (λ shares. vec_len shares ≡ count) }
    ensures empty { IfOk result (λ shares. All (λ share. share.items ≡ []) shares.items) }
{
    let mut shares = Vec::with_capacity(alloc, count)?;
    for _made in 0..count {
        shares.push_reserved(Vec::new(alloc));
    }
    Ok(shares)
}

// The shares of a list, so many of them.
pub(crate) fn deal<T: Drop, A: Allocator + Copy>(
    alloc: A,
    all: Vec<T>,
    count: usize,
) -> Result<Vec<Vec<T, A>, A>, OutOfMemory>
    requires { 0 < count }
    ensures count { IfOk result (λ shares. vec_len shares ≡ count) }
    ensures dealt { IfOk result
        (λ shares. AreDealt all.items (map (λ share. share.items) shares.items)) }
{
    let mut shares = empty_shares(alloc, count)?;
    for (i, member) in all.into_iter().enumerate() {
        shares[i % count].push(member)?;
    }
    Ok(shares)
}

// The members of each share, to be taken one at a time.
fn members<T: Drop, A: Allocator + Copy>(
    alloc: A,
    shares: Vec<Vec<T, A>, A>,
) -> Result<Vec<IntoIter<T, A>, A>, OutOfMemory>
    ensures { IfOk result (λ left. map (λ share. into_iter_items share) left.items
        ≡ map (λ share. share.items) shares.items) }
{
    let mut left = Vec::with_capacity(alloc, shares.len())?;
    for share in shares {
        left.push_reserved(share.into_iter());
    }
    Ok(left)
}

// The list of so many members whose shares these are.
pub(crate) fn merge<T: Drop, A: Allocator + Copy>(
    alloc: A,
    shares: Vec<Vec<T, A>, A>,
    count: usize,
) -> Result<Vec<T, A>, OutOfMemory>
    requires some { 0 < vec_len shares }
    requires sizes { AreSharesOf count (map (λ share. share.items) shares.items) }
    ensures count { IfOk result (λ all. vec_len all ≡ count) }
    ensures dealt { IfOk result
        (λ all. AreDealt all.items (map (λ share. share.items) shares.items)) }
{
    let n = shares.len();
    let mut left = members(alloc, shares)?;
    let mut all = Vec::with_capacity(alloc, count)?;
    for i in 0..count {
        let Some(member) = left[i % n].next() else {
            unreachable!()
        };
        all.push_reserved(member);
    }
    Ok(all)
}
