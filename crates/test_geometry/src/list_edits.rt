// Edits of a chain beside the same edits of a plain list.

ghost use Rattle.std.specs.Prelude.{◌≡◌, ◌<◌, ◌≤◌, length};
ghost use Rattle.range_pieces.specs.Pieces.{all_points};
ghost use Rattle.range_pieces.specs.PointList.{Stands, index};

use range_pieces::{Cursor, PIECE_SIZE, PointList};
use range_plane::Point;
use std::alloc::Global;
use std::process::Abort;
use std::test::Fail;
use test_doubles::next_random;

fn below(seed: u64, limit: usize) -> usize
    requires { 0 < limit }
    ensures { result < limit }
{
    ((seed >> 33) as usize) % limit
}

// The cursor after the first `k` points.
fn cursor_at(chain: &PointList, k: usize) -> Cursor
    requires { k ≤ length (all_points chain.now.pieces) }
    ensures stands { Stands chain.now.pieces result }
    ensures index { index chain.now.pieces result ≡ k }
{
    let mut c = chain.start();
    for _ in 0..k {
        c = chain.next(c);
    }
    c
}

// Puts `p` in place of the points from `from` up to `to`.
fn replace_in_list(
    alloc: Global,
    list: &[Point],
    from: usize,
    to: usize,
    p: Point,
) -> Result<Vec<Point>, Fail> {
    let mut edited = Vec::new(alloc);
    for (i, q) in list.iter().enumerate() {
        if i == from {
            edited.push(p)?;
        }
        if i < from || i >= to {
            edited.push(*q)?;
        }
    }
    if from >= list.len() {
        edited.push(p)?;
    }
    Ok(edited)
}

// Makes `count` edits, each of a run of fewer than `longest` points.
fn edit_many(rt: &(impl Abort + AllocGlobal), count: u32, longest: usize) -> Result<(), Fail>
    requires { 0 < longest }
{
    let mut chain = PointList::new(rt.alloc());
    let mut list: Vec<Point> = Vec::new(rt.alloc());
    let mut seed = 1;
    for i in 0..count {
        chain.reserve(1)?;
        let len = chain.len();
        if len == usize::MAX {
            return Ok(());
        }
        seed = next_random(seed);
        let from = below(seed, len + 1);
        seed = next_random(seed);
        let to = from.saturating_add(below(seed, longest)).min(len);
        let p = Point::new(i64::from(i), 0).ok_or("no point")?;
        if chain.spare() > 0 && from <= to {
            let start = cursor_at(&chain, from);
            let end = cursor_at(&chain, to);
            chain.replace_run(start, end, p);
        }
        list = replace_in_list(rt.alloc(), &list, from, to, p)?;
        let points = chain.to_vec(rt.alloc())?;
        assert!(rt; points.as_slice() == list.as_slice(), "after edit {i}");
        assert!(rt; chain.len() == list.len(), "after edit {i}");
    }
    Ok(())
}

#[test]
fn inserts_are_those_in_a_list(rt: HostRuntime) -> Result<(), Fail> {
    edit_many(&rt, 1200, 1)
}

#[test]
fn short_runs_are_those_in_a_list(rt: HostRuntime) -> Result<(), Fail> {
    edit_many(&rt, 1200, 3)
}

// Fills a list and a chain, in four pieces, with the same points.
fn fill(chain: &mut PointList, list: &mut Vec<Point>) -> Result<(), Fail> {
    chain.reserve(4 * PIECE_SIZE + 1)?;
    for i in 0..4 * PIECE_SIZE {
        let p = Point::new(i as i64, 1).ok_or("no point")?;
        list.push(p)?;
        if chain.spare() > 0 {
            let end = chain.end();
            chain.replace_run(end, end, p);
        }
    }
    Ok(())
}

// Replaces a run of points of a chain of four pieces, if there is such a run.
fn expect_replaced(rt: &impl Abort, alloc: Global, from: usize, to: usize) -> Result<(), Fail> {
    let mut chain = PointList::new(alloc);
    let mut list = Vec::new(alloc);
    fill(&mut chain, &mut list)?;
    assert!(rt; chain.piece_count() == 4);
    if from <= to && to <= chain.len() && chain.spare() > 0 {
        let p = Point { e: 7, n: 7 };
        let start = cursor_at(&chain, from);
        let end = cursor_at(&chain, to);
        chain.replace_run(start, end, p);
        let list = replace_in_list(alloc, &list, from, to, p)?;
        let points = chain.to_vec(alloc)?;
        assert!(rt; points.as_slice() == list.as_slice(), "{from} to {to}");
    }
    Ok(())
}

// Runs of up to three pieces.
#[test]
fn runs_across_pieces_are_those_in_a_list(rt: HostRuntime) -> Result<(), Fail> {
    for to in [0, 1, 2, 255, 256, 257, 300, 512, 513, 768, 769, 1023, 1024] {
        for from in [0, 1, 2, 128, 255, 256, 257, 511, 600, 768, 1023] {
            expect_replaced(&rt, rt.alloc(), from, to)?;
        }
    }
    Ok(())
}

// Goes through all points, and back.
fn go_on_and_back(rt: &impl Abort, chain: &PointList) {
    let mut on = chain.start();
    let mut seen = 0i64;
    for _ in 0..600 {
        if !chain.is_end(on) {
            assert!(rt; chain.get(on).e == 599i64.wrapping_sub(seen));
            seen = seen.wrapping_add(1);
            on = chain.next(on);
        }
    }
    assert!(rt; chain.is_end(on) && seen == 600 && on == chain.end());
    for _ in 0..600 {
        if !chain.is_start(on) {
            on = chain.previous(on);
        }
    }
    assert!(rt; chain.is_start(on) && on == chain.start());
}

#[test]
fn cursors_go_on_and_back(rt: HostRuntime) -> Result<(), Fail> {
    let mut chain = PointList::new(rt.alloc());
    assert!(rt; chain.len() == 0);
    chain.reserve(600)?;
    for i in 0..600 {
        let p = Point::new(i, 5).ok_or("no point")?;
        if chain.spare() > 0 {
            let start = chain.start();
            chain.replace_run(start, start, p);
        }
    }
    go_on_and_back(&rt, &chain);
    Ok(())
}
