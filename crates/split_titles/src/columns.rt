// The columns of a table that are read, and those that are not.

ghost use Rattle.std.specs.Prelude.{◌≡◌, IfOk, filter, not};
ghost use Rattle.std.specs.List.{range_with_len};
ghost use Rattle.split_titles.specs.Columns.{is_at, is_mark, is_of_choice, is_of_pair, is_of_places, is_read};

use range_plane::OutOfMemory;
use std::alloc::Allocator;

/// The columns of two coordinates: easting and northing, or longitude and latitude.
#[derive(Clone, Copy, PartialEq, Eq, Debug)]
pub struct Pair {
    pub first: usize,
    pub second: usize,
}

/// The columns of marks, as far as a table has them. Where `usage` (the title `use`) is there, no other is.
#[derive(Clone, Copy, PartialEq, Eq, Debug)]
pub struct Marks {
    pub usage: Option<usize>,
    pub visible: Option<usize>,
    pub manual_outlier: Option<usize>,
    pub algorithm_outlier: Option<usize>,
    pub import_outlier: Option<usize>,
    pub manual_valid: Option<usize>,
}

/// Which columns of a table are read, by their places; that of the first is 0.
#[derive(Drop)]
pub struct Columns<A: Allocator> {
    /// The first of these that has a text counts. None where all fixes are of one animal.
    pub animal: Vec<usize, A>,
    /// Joined by blanks. None where the order of records is that of time.
    pub time: Vec<usize, A>,
    /// Whether the time is a column `second` of homerange, since a start of one's own.
    pub is_second: bool,
    pub metres: Option<Pair>,
    pub degrees: Option<Pair>,
    /// Whether the metres are those of UTM.
    pub is_utm: bool,
    /// Whether the metres are of homerange's own titles.
    pub is_own: bool,
    pub zone: Option<usize>,
    pub marks: Marks,
    pub sensor: Option<usize>,
    /// Whether the sensor's column has numbers of Movebank (`sensor-type-id`).
    pub is_sensor_number: bool,
    pub argos: Option<usize>,
    pub dop: Option<usize>,
    pub fix_type: Option<usize>,
    /// Other columns with a usual title for the animal, in the order of columns: whoever reads the records has to see
    /// that they part them as the one that is taken does. None where the animal was named.
    pub other_animals: Vec<usize, A>,
}

// Whether this is the place.
fn is_at(at: usize, place: Option<usize>) -> bool
    ensures { result ≡ is_at at place }
{
    match place {
        Some(own) => own == at,
        None => false,
    }
}

// Whether this is a place of the pair.
fn is_of_pair(at: usize, pair: Option<Pair>) -> bool
    ensures { result ≡ is_of_pair at pair }
{
    match pair {
        Some(pair) => pair.first == at || pair.second == at,
        None => false,
    }
}

// Whether a mark stands in the column at this place.
fn is_mark(at: usize, marks: &Marks) -> bool
    ensures { result ≡ is_mark at marks.now }
{
    is_at(at, marks.usage)
        || is_at(at, marks.visible)
        || is_at(at, marks.manual_outlier)
        || is_at(at, marks.algorithm_outlier)
        || is_at(at, marks.import_outlier)
        || is_at(at, marks.manual_valid)
}

// Whether the column at this place says which fixes are taken.
#[tactic(auto, unfolding(crate::specs::Columns::is_of_choice))]
fn is_of_choice<A: Allocator>(columns: &Columns<A>, at: usize) -> bool
    ensures { result ≡ is_of_choice columns.now at }
{
    is_mark(at, &columns.marks)
        || is_at(at, columns.sensor)
        || is_at(at, columns.argos)
        || is_at(at, columns.dop)
        || is_at(at, columns.fix_type)
}

// Whether the column at this place has coordinates or their zone.
#[tactic(auto, unfolding(crate::specs::Columns::is_of_places))]
fn is_of_places<A: Allocator>(columns: &Columns<A>, at: usize) -> bool
    ensures { result ≡ is_of_places columns.now at }
{
    is_of_pair(at, columns.metres) || is_of_pair(at, columns.degrees) || is_at(at, columns.zone)
}

/// Whether the column at this place is read.
#[tactic(auto, unfolding(crate::specs::Columns::is_read))]
pub fn is_read<A: Allocator>(columns: &Columns<A>, at: usize) -> bool
    ensures { result ≡ is_read columns.now at }
{
    columns.animal.contains(&at)
        || columns.time.contains(&at)
        || columns.other_animals.contains(&at)
        || is_of_places(columns, at)
        || is_of_choice(columns, at)
}

/// The columns of a table of this width that are read in no role, in their order. Those with another usual title for
/// the animal are read, since they are compared with it.
///
/// # Errors
///
/// Memory ran out.
pub fn not_read<A: Allocator>(
    alloc: A,
    columns: &Columns<A>,
    width: usize,
) -> Result<Vec<usize, A>, OutOfMemory>
    ensures { IfOk result (λ places. places.items
        ≡ filter (λ at. not (is_read columns.now at)) (range_with_len 0 width)) }
{
    let places = (0..width)
        .filter(|at| !is_read(columns, *at))
        .collect(alloc)?;
    Ok(places)
}
