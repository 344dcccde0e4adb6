// Files that were followed, made by hand.

ghost use Rattle.range_fixes.specs.declared.read_fault.ReadFault.TheVariants.{Gone};
ghost use Rattle.std.specs.Prelude.{◌≢◌, ◌≤◌, Err, IfOk, length};

use range_analysis::{AnalyseFault, Analysis, judge};
use range_collect::Followed;
use range_estimator::Estimator;
use range_fixes::{Name, ReadFault};
use range_line::{Feeder, open_line};
use range_options::{FILE_LIMIT, Levels};
use range_plane::{Fix, Point, Scale};
use range_pump::ThreadRuntime;
use std::alloc::Global;
use std::process::Abort;
use std::sync::Wait;
use std::test::Fail;

// A file: what its reader says, its fixes by their seconds, eastings and northings, and whether its mark
// is sent.
#[derive(Clone, Copy)]
pub(crate) struct File {
    pub(crate) said: Result<&'static [u8], ReadFault>,
    pub(crate) fixes: &'static [(u64, i64, i64)],
    pub(crate) mark: bool,
}

// The fault of two files that both have this animal.
pub(crate) fn same_animal(
    alloc: Global,
    first: u32,
    second: u32,
    animal: &[u8],
) -> Result<AnalyseFault, Fail> {
    let animal = Name::new(Vec::from_slice(alloc, animal)?);
    Ok(AnalyseFault::SameAnimal {
        first,
        second,
        animal,
    })
}

// More fixes than a file here has.
const MANY_FIXES: usize = 100;

// The estimator of these fixes.
fn estimator_of(alloc: Global, records: &[(u64, i64, i64)]) -> Result<Estimator, Fail>
    ensures { IfOk result (λ e. 1 ≤ length e.fixes) }
{
    let mut fixes = Vec::new(alloc);
    for &(second, e, n) in records {
        let at = Point::new(e, n).ok_or("no point")?;
        fixes.push(Fix { second, at })?;
    }
    if fixes.is_empty() || fixes.len() > MANY_FIXES {
        return Err(Fail::from("no such file"));
    }
    let mut estimator = Estimator::new(alloc);
    estimator.take_block(&fixes)?;
    Ok(estimator)
}

// The feeder of a file, after its mark where that is sent.
fn feeder_of<R: Wait + Abort>(rt: &R, alloc: Global, mark: bool) -> Result<Feeder, Fail> {
    let (mut feeders, _taker) = open_line(alloc, 0, 1, 1, 1)?;
    let mut feeder = feeders.pop().ok_or("no feeder")?;
    if mark {
        assert!(rt; feeder.close(rt), "the mark");
    }
    Ok(feeder)
}

// What a reader said that handed every block on.
fn read_result(
    alloc: Global,
    said: Result<&[u8], ReadFault>,
) -> Result<Result<Name, ReadFault>, Fail>
    ensures { IfOk result (λ read. read ≢ Err Gone) }
{
    match said {
        Ok(bytes) => Ok(Ok(Name::new(Vec::from_slice(alloc, bytes)?))),
        Err(ReadFault::Gone) => Err(Fail::from("no such file")),
        Err(fault) => Ok(Err(fault)),
    }
}

// What is known of a file.
fn followed<R: Wait + Abort>(rt: &R, alloc: Global, file: File) -> Result<Followed, Fail> {
    let feeder = feeder_of(rt, alloc, file.mark)?;
    let marked = feeder.closed();
    let estimator = estimator_of(alloc, file.fixes)?;
    let read = read_result(alloc, file.said)?;
    Ok(Followed {
        feeder,
        read,
        estimator,
        marked,
    })
}

// These levels.
pub(crate) fn levels_of(alloc: Global, levels: &[u8]) -> Result<Levels, Fail> {
    let levels = Vec::from_slice(alloc, levels)?;
    Ok(Levels::new(levels).ok_or("no levels")?)
}

// What these files come to.
pub(crate) fn judged<R: ThreadRuntime + Abort>(
    rt: &R,
    alloc: Global,
    files: &[File],
    levels: &[u8],
) -> Result<Result<Analysis, AnalyseFault>, Fail> {
    let mut all = Vec::new(alloc);
    for file in files {
        all.push(followed(rt, alloc, *file)?)?;
    }
    assert!(rt;
        !all.is_empty() && all.len() <= FILE_LIMIT as usize,
        "files"
    );
    let levels = levels_of(alloc, levels)?;
    Ok(judge(rt, alloc, all, &levels, Scale::Metre))
}
