// The counts of pairs.

ghost use Rattle.std.specs.Prelude.{◌≡◌, ◌<◌, ◌^◌, length};
ghost use Rattle.std.specs.List.{slice_get};
ghost use Rattle.page_facts.specs.Facts.{count_if, count_of, fixes_if, place_of};
ghost use Rattle.page_report.specs.Reading.{read, said};

use page_report::{Overlap, Report};

// Where the overlap of two of so many animals stands.
fn place_of(animals: usize, animal: usize, range: usize) -> u128
    ensures { result ≡ place_of animals animal range }
{
    let others = (animals as u128).saturating_sub(1);
    let behind = if range < animal {
        range
    } else {
        range.saturating_sub(1)
    };
    animal as u128 * others + behind as u128
}

// The overlap at a place.
fn overlap_at(overlaps: &[Overlap], place: u128) -> Option<Overlap>
    ensures { result ≡ slice_get overlaps.now place }
{
    match usize::try_from(place) {
        Ok(place) => overlaps.get(place).copied(),
        Err(_none_so_far) => None,
    }
}

// The count of an overlap, which has to be that of these two.
fn count_if(animal: usize, range: usize, overlap: Option<Overlap>) -> Option<usize>
    ensures { result ≡ count_if animal range overlap }
{
    match overlap {
        Some(own) if own.animal == animal && own.range == range => Some(own.count as usize),
        _ => None,
    }
}

// How many fixes an animal has.
fn fixes_at(report: &Report, animal: usize) -> Option<usize>
    ensures { result ≡ fixes_if (slice_get (read report.now).animals animal) }
{
    match report.animals.get(animal) {
        Some(animal) => Some(animal.rows.len()),
        None => None,
    }
}

/// How many fixes of an animal lie in the range of another, both by their places; all lie in its own. None where the report has
/// no such two.
pub fn count_of(report: &Report, animal: usize, range: usize) -> Option<usize>
    ensures { result ≡ count_of (read report.now) animal range }
{
    if animal == range {
        return fixes_at(report, animal);
    }
    let place = place_of(report.animals.len(), animal, range);
    count_if(animal, range, overlap_at(&report.overlaps, place))
}
