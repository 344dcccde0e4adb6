// Files in memory that are followed by one worker and more.

use bench_tracks::{cloud, read_points, shuffle, spiral, walk};
use itoa::Buffer;
use range_collect::{Followed, follow};
use range_options::{FILE_LIMIT, Plan};
use range_plane::{Point, Scale};
use range_pump::{FreeGate, ThreadRuntime};
use std::alloc::{AllocError, Global};
use std::rt::Runtime;
use std::time::Instant;

const FILES: usize = 8;

const FILE_FIXES: usize = 131_072;

// The bytes of a record at most.
const RECORD_BYTES: usize = 24;

// Appends a number behind a comma.
fn push_number(text: &mut Vec<u8>, n: i64) -> Result<(), AllocError> {
    let mut buffer = Buffer::new();
    text.push(b',')?;
    text.extend_from_slice(buffer.format(n).as_bytes())
}

// A file of the points, a minute apart.
fn file_of(alloc: Global, points: &[Point]) -> Result<Vec<u8>, AllocError> {
    let mut text = Vec::with_capacity(alloc, points.len().saturating_mul(RECORD_BYTES))?;
    text.extend_from_slice(b"animal,second,easting,northing\n")?;
    let mut second = 0i64;
    for p in points {
        text.push(b'A')?;
        push_number(&mut text, second)?;
        push_number(&mut text, p.e)?;
        push_number(&mut text, p.n)?;
        text.push(b'\n')?;
        second = second.wrapping_add(60);
    }
    Ok(text)
}

// The last rows together, where all files were followed to their end.
fn sum_of(all: &[Followed]) -> Option<(u64, u64, u128)> {
    let mut sum = (0u64, 0u64, 0u128);
    for followed in all {
        if followed.read.is_err() || !followed.marked {
            return None;
        }
        let rows = followed.estimator.rows();
        let last = rows.last()?;
        sum.0 = sum.0.wrapping_add(rows.len() as u64);
        sum.1 = sum.1.wrapping_add(u64::from(last.corners));
        sum.2 = sum.2.wrapping_add(last.area2);
    }
    Some(sum)
}

// Follows the files by so many workers.
fn time_workers<R: Runtime + ThreadRuntime>(
    rt: &R,
    alloc: Global,
    name: &str,
    files: &[Vec<u8>],
    workers: u32,
) -> Result<(), anyhow::Error> {
    let Some(plan) = Plan::new(256, 4, workers, Scale::Metre) else {
        return Ok(());
    };
    let mut sources = Vec::new(alloc);
    for file in files {
        sources.push(file.as_slice())?;
    }
    if sources.is_empty() || sources.len() > FILE_LIMIT as usize {
        return Ok(());
    }
    let start = Instant::now(rt)?;
    let all = follow(rt, alloc, alloc, sources, &FreeGate, plan)?;
    let time = start.elapsed(rt)?.as_micros();
    if let Some((fixes, corners, area2)) = sum_of(&all) {
        println!(rt; "{name},{workers},{fixes},{corners},{area2}")?;
        eprintln!(rt; "{name},{workers},{time}")?;
    }
    Ok(())
}

fn time_file<R: Runtime + ThreadRuntime>(
    rt: &R,
    alloc: Global,
    name: &str,
    points: &[Point],
) -> Result<(), anyhow::Error> {
    let mut files = Vec::new(alloc);
    files.push(file_of(alloc, points)?)?;
    for workers in [1, 4] {
        time_workers(rt, alloc, name, &files, workers)?;
    }
    Ok(())
}

fn time_files<R: Runtime + ThreadRuntime>(
    rt: &R,
    alloc: Global,
    name: &str,
    points: &[Point],
) -> Result<(), anyhow::Error> {
    let mut files = Vec::new(alloc);
    for part in points.chunks(FILE_FIXES).take(FILES) {
        files.push(file_of(alloc, part)?)?;
    }
    for workers in [1, 2, 4, 8] {
        time_workers(rt, alloc, name, &files, workers)?;
    }
    Ok(())
}

/// Times a file each of 2^20 fixes of a walk, a cloud and a spiral, one of the points that the text has, in their
/// order and shuffled, and eight files of 131,072 fixes of the walk. Prints how many fixes, corners and which
/// doubled area the files have together in the end, and says how many microseconds each took.
pub(crate) fn time_follow<R: Runtime + ThreadRuntime>(
    rt: &R,
    alloc: Global,
    text: &str,
) -> Result<(), anyhow::Error> {
    let mut points = read_points(alloc, text)?;
    time_file(rt, alloc, "walk", &walk(alloc)?)?;
    time_file(rt, alloc, "cloud", &cloud(alloc)?)?;
    time_file(rt, alloc, "spiral", &spiral(alloc)?)?;
    time_file(rt, alloc, "curve", &points)?;
    shuffle(&mut points);
    time_file(rt, alloc, "shuffled", &points)?;
    time_files(rt, alloc, "files", &walk(alloc)?)
}
