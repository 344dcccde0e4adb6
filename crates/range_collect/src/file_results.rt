// What is known of each file of a line that has ended, put together.

ghost use Rattle.std.specs.Prelude.{◌≡◌, ℕ, All, map, slice_get, Some, IfOk, vec_len};
ghost use Rattle.range_line.specs.LineEnds.{FeederView};
ghost use Rattle.range_estimator.specs.Estimation.{Estimation};
ghost use Rattle.range_collect.specs.Follow.{IsResult};
ghost use Rattle.range_collect.specs.LineFiles.{IsSeen};
ghost use Rattle.range_pump.specs.Pump.{ReadResult};

use crate::followed::Followed;
use range_estimator::Estimator;
use range_fixes::{Name, ReadFault};
use range_line::Feeder;
use range_plane::OutOfMemory;
use std::alloc::Allocator;

// The result of a file.
fn followed<A: Allocator + Clone + Copy>(
    feeder: Feeder<A>,
    read: Result<Name, ReadFault>,
    estimator: Estimator<A>,
) -> Followed<A>
    requires result { IsResult feeder read estimator feeder.closed }
    ensures parts { (result.feeder ≡ feeder) × (result.read ≡ read)
        × (result.estimator ≡ estimator) }
    ensures seen { IsSeen result.feeder result.marked }
{
    let marked = feeder.closed();
    Followed {
        feeder,
        read,
        estimator,
        marked,
    }
}

// The results of files, given their ends in the same order.
pub(crate) fn pair<A: Allocator + Clone + Copy>(
    alloc: A,
    feeders: Vec<Feeder<A>, A>,
    reads: Vec<Result<Name, ReadFault>, A>,
    estimators: Vec<Estimator<A>, A>,
) -> Result<Vec<Followed<A>, A>, OutOfMemory>
    requires counts { (vec_len feeders ≡ vec_len reads) × (vec_len estimators ≡ vec_len reads) }
    requires results { (index : ℕ) (f : FeederView) (r : ReadResult) (e : Estimation)
        → slice_get feeders.items index ≡ Some f
        → slice_get reads.items index ≡ Some r → slice_get estimators.items index ≡ Some e
        → IsResult f r e f.closed }
    ensures feeders { IfOk result (λ all. map (λ f. f.feeder) all.items ≡ feeders.items) }
    ensures reads { IfOk result (λ all. map (λ f. f.read) all.items ≡ reads.items) }
    ensures estimators { IfOk result (λ all. map (λ f. f.estimator) all.items ≡ estimators.items) }
    ensures seen { IfOk result (λ all. All (λ f. IsSeen f.feeder f.marked) all.items) }
{
    let mut all = Vec::with_capacity(alloc, reads.len())?;
    let mut feeders = feeders.into_iter();
    let mut estimators = estimators.into_iter();
    for read in reads {
        let Some(feeder) = feeders.next() else {
            unreachable!()
        };
        let Some(estimator) = estimators.next() else {
            unreachable!()
        };
        all.push_reserved(followed(feeder, read, estimator));
    }
    Ok(all)
}
