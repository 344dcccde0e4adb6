// From the bytes of an export to the files of its tracks.

ghost use Rattle.std.specs.Prelude.{◌≡◌, ◌<◌, ◌^◌, ◌⊎◌, IfErr, IfOk, Ok, length, map};
ghost use Rattle.split_chain.specs.Chain.{
  AreFilesAt,
  AreFilesBy,
  AreFilesOf,
  AreMade,
  AreTold,
  IsListed,
  IsOrdered,
  IsSplit,
  records_with,
  text_in,
  tracks_with,
};
ghost use Rattle.split_chain.specs.Refused.{IsOffGridAt, IsOffGridBy, IsOffGridOf, IsRefused};
ghost use Rattle.split_counts.specs.Counts.{left_counts};
ghost use Rattle.split_export.specs.Export.{bytes_of};
ghost use Rattle.split_export.specs.Files.{entries_of_all, filed, files_of};
ghost use Rattle.split_fates.specs.Fates.{fates_of};
ghost use Rattle.split_names.specs.Names.{file_names};
ghost use Rattle.split_reading.specs.Words.{texts};
ghost use Rattle.split_refusal.specs.Refused.{IsOfNoFix};
ghost use Rattle.split_said.specs.Order.{animals_in_order};

use crate::beside::tell_beside;
use crate::blank_names::tell_blank_names;
use crate::coarse::tell_coarse;
use crate::deployments::tell_deployments;
use crate::missing::{tell_other_points, tell_unmet};
use crate::other_clocks::tell_other_clocks;
use crate::passed::refuse_passed_over;
use crate::placed::{choice_of, grid_of, moved_by, place};
use crate::predeployment::tell_predeployment;
use crate::read::{read, refuse_maker, refuse_other_animals, shown};
use crate::steps::{counts_by, fates_by, fixes_by, leave_out_by, names_by, records_by, tracks_by};
use crate::times::form_of_times;
use crate::unknown_words::tell_unknown_words;
use crate::wish::Wish;
use indexmap::IndexSet;
use range_plane::OutOfMemory;
use split_counts::count_of;
use split_export::{Asked, Export, TrackFile, make_files};
use split_fates::Choice;
use split_reading::{Ledger, Progress, Row};
use split_refusal::Refusal;
use split_said::{
    Grid, Said, Sheet, TimesRead, Wanted, animals_in_order, check_halves, check_ledger, tell_every,
    tell_files, tell_speed, tell_tracks,
};
use split_table::TableText;
use split_titles::Columns;
use split_tracks::{Entry, Fate, Reason};
use std::alloc::Global;

/// What an export comes to.
#[derive(Drop)]
pub struct Split {
    /// The file of each animal, in the order of first records. One of an animal none of whose fixes is left has no record.
    pub files: Vec<TrackFile>,
    /// The animals that have a record in their file, in the order of the first such.
    pub order: Vec<u32>,
    /// How many records are left out, by animal and reason, as `split_counts` has it.
    pub counts: Vec<usize>,
    /// What became of each record, as text, if that was wished.
    pub records: Option<Vec<u8>>,
    pub said: Said,
    pub grid: Grid,
}

// What a table comes to.
#[derive(Drop)]
struct Made {
    files: Vec<TrackFile>,
    order: Vec<u32>,
    counts: Vec<usize>,
    records: Option<Vec<u8>>,
}

// A table that was read, whose rows are placed on a grid.
#[derive(Clone, Copy)]
struct Look<'a> {
    text: &'a TableText<'a>,
    sheet: &'a Sheet<'a>,
    wish: &'a Wish<'a>,
    // The names of animals in the table.
    animals: &'a IndexSet<Vec<u8>>,
    grid: &'a Grid,
    // By how many metres rounding moves a fix at most, of fixes that are projected.
    projected: Option<f64>,
}

// The fates of records, the names of the animals' files, and how many fixes each animal has before any filter.
#[derive(Drop)]
struct Fated {
    fates: Vec<Fate>,
    names: Vec<Vec<u8>>,
    fixes: Vec<usize>,
}

// The tracks of records, the animals that have a record in theirs, and how many records are left out.
#[derive(Drop)]
struct Filtered {
    tracks: Vec<Vec<Entry>>,
    order: Vec<u32>,
    counts: Vec<usize>,
}

// Says what there is to say of tracks before filters look at them.
fn tell(alloc: Global, said: &mut Said, look: &Look<'_>, fated: &Fated) -> Result<(), Refusal>
    ensures { IfErr result IsOfNoFix }
{
    let tracks = tracks_by(alloc, &fated.fates, &fated.names)?;
    let moved = moved_by(alloc, look.text, look.sheet, &fated.fates, look.projected)?;
    tell_tracks(
        alloc,
        said,
        look.sheet,
        look.grid,
        &fated.fates,
        &tracks,
        &fated.names,
        moved,
    )
}

// How many records are left out for a reason, of all animals.
fn count_left(counts: &[usize], animals: usize, reason: Reason) -> usize {
    let many = u32::try_from(animals).unwrap_or(u32::MAX);
    let mut count: usize = 0;
    for animal in 0..many {
        count = count.saturating_add(count_of(counts, many, Some(animal), reason));
    }
    count
}

// Says how many fixes the filters left out that look at more than one.
fn tell_left(
    alloc: Global,
    said: &mut Said,
    wish: &Wish<'_>,
    counts: &[usize],
    animals: usize,
) -> Result<(), OutOfMemory> {
    if let Some(speed) = wish.speed {
        let left = count_left(counts, animals, Reason::Speed);
        tell_speed(alloc, said, speed.millionths, left)?;
    }
    if let Some(length) = wish.every {
        let left = count_left(counts, animals, Reason::Every);
        tell_every(alloc, said, length, left)?;
    }
    Ok(())
}

// Checks what filters left out, and says it.
fn check_left(
    alloc: Global,
    said: &mut Said,
    look: &Look<'_>,
    fated: &Fated,
    counts: &[usize],
) -> Result<(), Refusal>
    ensures { IfErr result IsOfNoFix }
{
    check_halves(alloc, &fated.names, &fated.fixes, counts)?;
    match tell_left(alloc, said, look.wish, counts, fated.names.len()) {
        Ok(()) => Ok(()),
        Err(_) => Err(Refusal::out_of_memory(alloc)),
    }
}

// The files of tracks with these names.
fn files_by(
    alloc: Global,
    choice: &Choice,
    names: &[Vec<u8>],
    tracks: &[Vec<Entry>],
) -> Result<Vec<TrackFile>, Refusal>
    requires { length names.now ≡ length tracks.now }
    ensures files { IfOk result (λ files. map filed files.items
        ≡ files_of choice.now (bytes_of names.now) (entries_of_all tracks.now)) }
    ensures refused { IfErr result IsOfNoFix }
{
    match make_files(alloc, choice, names, tracks) {
        Ok(files) => Ok(files),
        Err(_) => Err(Refusal::out_of_memory(alloc)),
    }
}

// The animals with a record in their file.
fn order_by(alloc: Global, fates: &[Fate], animals: usize) -> Result<Vec<u32>, Refusal>
    ensures order { IfOk result (λ order. order.items ≡ animals_in_order animals fates.now) }
    ensures refused { IfErr result IsOfNoFix }
{
    match animals_in_order(alloc, fates, animals) {
        Ok(order) => Ok(order),
        Err(_) => Err(Refusal::out_of_memory(alloc)),
    }
}

// The tracks of records with these fates, once filters left some out, and what there is to say of them.
fn filtered_tracks(
    alloc: Global,
    said: &mut Said,
    look: &Look<'_>,
    fated: &Fated,
) -> Result<Filtered, Refusal>
    ensures tracks { IfOk result (λ filtered. entries_of_all filtered.tracks.items
        ≡ tracks_with (bytes_of fated.now.names.items) fated.now.fates.items) }
    ensures count { IfOk result (λ filtered. length fated.now.names.items ≡ length filtered.tracks.items) }
    ensures few { IfOk result (λ filtered. length (bytes_of fated.now.names.items) < 2 ^ 32) }
    ensures counts { IfOk result (λ filtered. filtered.counts.items
        ≡ left_counts (length (bytes_of fated.now.names.items)) fated.now.fates.items) }
    ensures order { IfOk result (λ filtered. filtered.order.items
        ≡ animals_in_order (length (bytes_of fated.now.names.items)) fated.now.fates.items) }
    ensures refused { IfErr result IsOfNoFix }
{
    let tracks = tracks_by(alloc, &fated.fates, &fated.names)?;
    let counts = counts_by(alloc, &fated.fates, &fated.names)?;
    check_left(alloc, said, look, fated, &counts)?;
    tell_files(
        alloc,
        said,
        look.sheet,
        look.grid,
        look.animals,
        &fated.fates,
        &tracks,
        &fated.names,
    )?;
    let order = order_by(alloc, &fated.fates, tracks.len())?;
    Ok(Filtered {
        tracks,
        order,
        counts,
    })
}

// The files of the tracks of records with these fates, once filters left some out. The fates go before the files are made: both
// take as much memory as half of an export.
fn make_filtered(
    alloc: Global,
    said: &mut Said,
    look: &Look<'_>,
    choice: &Choice,
    fated: Fated,
) -> Result<Made, Refusal>
    ensures made { IfOk result (λ made. AreMade choice.now (bytes_of fated.names.items) fated.fates.items
        (map filed made.files.items) made.counts.items) }
    ensures order { IfOk result (λ made. made.order.items
        ≡ animals_in_order (length (bytes_of fated.names.items)) fated.fates.items) }
    ensures records { IfOk result (λ made. text_in made.records
        ≡ records_with look.now.wish.now.lists_records (bytes_of fated.names.items) fated.fates.items) }
    ensures refused { IfErr result IsOfNoFix }
{
    let Filtered {
        tracks,
        order,
        counts,
    } = filtered_tracks(alloc, said, look, &fated)?;
    let Fated { fates, names, .. } = fated;
    let records = records_by(alloc, look.wish.lists_records, &names, &fates)?;
    drop(fates);
    let files = files_by(alloc, choice, &names, &tracks)?;
    Ok(Made {
        files,
        order,
        counts,
        records,
    })
}

// What becomes of the records of such rows, and the names of their animals' files. The rows go: they take more memory than all
// that is made of them.
fn fated_by(
    alloc: Global,
    choice: &Choice,
    animals: &IndexSet<Vec<u8>>,
    rows: Vec<Row>,
) -> Result<Fated, Refusal>
    ensures fates { IfOk result (λ fated. fates_of choice.now rows.items ≡ Ok fated.fates.items) }
    ensures names { IfOk result (λ fated. file_names (texts animals.now) ≡ Ok (bytes_of fated.names.items)) }
    ensures refused { IfErr result (λ refusal. IsOffGridBy choice.now rows.items refusal ⊎ IsOfNoFix refusal) }
{
    let fates = fates_by(alloc, choice, &rows)?;
    let names = names_by(alloc, animals)?;
    let fixes = fixes_by(alloc, &rows, &names)?;
    Ok(Fated {
        fates,
        names,
        fixes,
    })
}

// The files of the tracks of a table with such rows, and the animals that have a record in theirs.
fn make(
    alloc: Global,
    said: &mut Said,
    look: &Look<'_>,
    choice: &Choice,
    rows: Vec<Row>,
) -> Result<Made, Refusal>
    ensures made { IfOk result (λ made. (files : AreFilesBy look.now.wish.now choice.now (texts look.now.animals.now)
        rows.items (map filed made.files.items) made.counts.items) × AreTold files made.order.items made.records) }
    ensures refused { IfErr result (λ refusal. IsOffGridBy choice.now rows.items refusal ⊎ IsOfNoFix refusal) }
{
    let mut fated = fated_by(alloc, choice, look.animals, rows)?;
    tell(alloc, said, look, &fated)?;
    leave_out_by(
        alloc,
        &mut fated.fates,
        &fated.names,
        look.wish.speed_filter(choice.unit),
    )?;
    leave_out_by(
        alloc,
        &mut fated.fates,
        &fated.names,
        look.wish.every_filter(),
    )?;
    make_filtered(alloc, said, look, choice, fated)
}

// Checks the records of a table as a whole, and finds their grid.
fn check(
    alloc: Global,
    said: &mut Said,
    text: &TableText<'_>,
    sheet: &Sheet<'_>,
    ledger: &Ledger,
) -> Result<Grid, Refusal>
    ensures { IfErr result IsOfNoFix }
{
    check_ledger(alloc, said, sheet, ledger)?;
    grid_of(alloc, said, text, sheet, ledger)
}

// The split of a table whose rows are placed.
fn split_placed(
    alloc: Global,
    said: Said,
    look: &Look<'_>,
    columns: &Columns<Global>,
    rows: Vec<Row>,
) -> Result<Split, Refusal>
    ensures split { IfOk result (λ split. (files : AreFilesAt look.now.wish.now look.now.sheet.now.unit columns.now
        (texts look.now.animals.now) rows.items (map filed split.files.items) split.counts.items)
        × AreTold files.are_files split.order.items split.records) }
    ensures refused { IfErr result (λ refusal. IsOffGridAt look.now.wish.now look.now.sheet.now.unit columns.now rows.items refusal
        ⊎ IsOfNoFix refusal) }
{
    let mut said = said;
    let choice = choice_of(columns, &rows, look.grid, look.sheet.unit, look.wish);
    let Made {
        files,
        order,
        counts,
        records,
    } = make(alloc, &mut said, look, &choice, rows)?;
    Ok(Split {
        files,
        order,
        counts,
        records,
        said,
        grid: *look.grid,
    })
}

// The split of a table.
fn split_sheet(
    alloc: Global,
    text: &TableText<'_>,
    sheet: &Sheet<'_>,
    wish: &Wish<'_>,
    columns: &Columns<Global>,
    ledger: Ledger,
    said: Said,
) -> Result<Split, Refusal>
    ensures split { IfOk result (λ split. (files : AreFilesOf wish.now sheet.now.unit columns.now ledger
        (map filed split.files.items) split.counts.items) × AreTold files.are_files.are_files split.order.items split.records) }
    ensures refused { IfErr result (λ refusal. IsOffGridOf wish.now sheet.now.unit columns.now ledger refusal ⊎ IsOfNoFix refusal) }
{
    let mut said = said;
    let grid = check(alloc, &mut said, text, sheet, &ledger)?;
    let Ledger { names, rows, .. } = ledger;
    let mut rows = rows;
    let projected = place(&mut rows, columns, &grid, sheet.unit, wish.keeps_marks);
    let look = Look {
        text,
        sheet,
        wish,
        animals: &names,
        grid: &grid,
        projected,
    };
    split_placed(alloc, said, &look, columns, rows)
}

// The split of an export.
fn split_read(
    alloc: Global,
    asked: &Asked<'_>,
    wish: &Wish<'_>,
    form: &[u8],
    export: Export<'_>,
    said: Said,
) -> Result<Split, Refusal>
    ensures split { IfOk result (λ split. (files : AreFilesOf wish.now asked.now.unit export.entry.columns export.entry.ledger
        (map filed split.files.items) split.counts.items) × AreTold files.are_files.are_files split.order.items split.records) }
    ensures refused { IfErr result (λ refusal. IsOffGridOf wish.now asked.now.unit export.entry.columns export.entry.ledger refusal
        ⊎ IsOfNoFix refusal) }
{
    let Export {
        text,
        titles,
        columns,
        ledger,
    } = export;
    let Ok(titles) = shown(alloc, &titles) else {
        return Err(Refusal::out_of_memory(alloc));
    };
    let sheet = Sheet {
        exports: wish.exports,
        titles: &titles,
        columns: &columns,
        unit: asked.unit,
        zone: wish.zone,
        system: wish.system,
        name: asked.name,
        times: TimesRead {
            form,
            clock: asked.clock,
            clock_name: wish.clock_name.as_bytes(),
        },
        filters: asked.filters,
        wanted: Wanted {
            classes: wish.classes,
            types: wish.types,
            since: wish.since,
            until: wish.until,
        },
        keeps_marks: wish.keeps_marks,
    };
    split_sheet(alloc, &text, &sheet, wish, &columns, ledger, said)
}

// Says what there is to say of a table by its titles and texts.
fn tell_table(
    alloc: Global,
    said: &mut Said,
    bytes: &[u8],
    asked: &Asked<'_>,
    wish: &Wish<'_>,
    export: &Export<'_>,
) -> Result<(), Refusal>
    ensures { IfErr result IsOfNoFix }
{
    tell_other_points(alloc, said, wish)?;
    tell_unmet(alloc, said, bytes, asked, wish, export)?;
    tell_predeployment(alloc, said, export)?;
    tell_deployments(alloc, said, asked, export)?;
    tell_unknown_words(alloc, said, asked, export)?;
    tell_blank_names(alloc, said, asked, export)?;
    tell_other_clocks(alloc, said, asked, wish, export)?;
    tell_coarse(alloc, said, asked.unit, export)?;
    tell_beside(alloc, said, wish, export)
}

/// Splits the bytes of an export at this path into the files of its tracks, and says what was guessed, left out, sorted, shifted
/// or rounded. While records are read it tells how far it is.
///
/// # Errors
///
/// Why the export is refused.
pub fn split_export<P: Progress>(
    alloc: Global,
    bytes: &[u8],
    path: &[u8],
    asked: &Asked<'_>,
    wish: &Wish<'_>,
    progress: &mut P,
) -> Result<Split, Refusal>
    ensures split { IfOk result (λ split. IsSplit wish.now asked.now bytes.now split.files.items split.counts.items) }
    ensures order { IfOk result (λ split. IsOrdered wish.now asked.now bytes.now split.files.items split.counts.items split.order.items) }
    ensures records { IfOk result (λ split. IsListed wish.now asked.now bytes.now split.files.items split.counts.items split.records) }
    ensures refused { IfErr result (IsRefused wish.now asked.now bytes.now) }
{
    let export = read(alloc, bytes, path, asked, wish, progress)?;
    refuse_maker(alloc, asked, &export)?;
    refuse_other_animals(alloc, bytes, path, &export)?;
    refuse_passed_over(alloc, asked.unit, wish, &export)?;
    let form = form_of_times(alloc, bytes, asked, wish, &export)?;
    let mut said = Said::new(alloc);
    tell_table(alloc, &mut said, bytes, asked, wish, &export)?;
    split_read(alloc, asked, wish, &form, export, said)
}
