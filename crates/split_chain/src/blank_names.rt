// Records without a name whose device has one in others, where the animal is the first of several columns that has a text.

ghost use Rattle.std.specs.Prelude.{IfErr};
ghost use Rattle.split_refusal.specs.Refused.{IsOfNoFix};

use crate::passed::title_at;
use indexmap::IndexMap;
use range_plane::OutOfMemory;
use split_export::{Asked, Export};
use split_reading::{Row, Told};
use split_refusal::Refusal;
use split_said::Said;
use split_titles::trimmed;
use std::alloc::Global;

// The names of devices in records that have one, and how many records of each device have none.
#[derive(Drop)]
struct Names {
    named: IndexMap<Vec<u8>, Vec<u8>>,
    unnamed: IndexMap<Vec<u8>, usize>,
}

// A field without blanks beside it; empty where it is a word for what is missing.
fn told<'f>(field: &'f [u8], asked: &Asked<'_>) -> &'f [u8] {
    let text = trimmed(field);
    if asked.missing.contains(&text) {
        b""
    } else {
        text
    }
}

impl Names {
    // Those of no record.
    fn none(alloc: Global) -> Names {
        Names {
            named: IndexMap::new(alloc),
            unnamed: IndexMap::new(alloc),
        }
    }

    // Adds the name and the device of a record.
    fn add(&mut self, alloc: Global, name: &[u8], device: &[u8]) -> Result<(), OutOfMemory> {
        if device.is_empty() {
            return Ok(());
        }
        if name.is_empty() {
            let count = self.unnamed.get(device).copied().unwrap_or(0);
            let own = Vec::from_slice(alloc, device)?;
            let _before = self.unnamed.insert(own, count.saturating_add(1))?;
        } else if self.named.get(device).is_none() {
            let own = Vec::from_slice(alloc, device)?;
            let _none = self.named.insert(own, Vec::from_slice(alloc, name)?)?;
        }
        Ok(())
    }
}

// Whether a row tells of a fix.
fn is_fix(row: &Row) -> bool {
    matches!(row.told, Told::Fix(_))
}

// The names of the records of an export, by two columns of the animal.
fn names_in(
    alloc: Global,
    asked: &Asked<'_>,
    export: &Export<'_>,
    first: usize,
    second: usize,
) -> Result<Names, OutOfMemory> {
    let mut names = Names::none(alloc);
    let Ok(mut table) = export.text.table(alloc) else {
        return Err(OutOfMemory);
    };
    for row in &export.ledger.rows {
        match table.advance() {
            Ok(true) => {}
            Ok(false) => return Ok(names),
            Err(_) => return Err(OutOfMemory),
        }
        if is_fix(row) {
            let fields = table.current();
            let name = told(fields.get(first).unwrap_or(b""), asked);
            let device = told(fields.get(second).unwrap_or(b""), asked);
            names.add(alloc, name, device)?;
        }
    }
    Ok(names)
}

// Asks about the first device that has a name in some records and none in others.
fn tell(
    alloc: Global,
    said: &mut Said,
    asked: &Asked<'_>,
    export: &Export<'_>,
) -> Result<(), OutOfMemory> {
    let [first, second, ..] = export.columns.animal.as_slice() else {
        return Ok(());
    };
    let names = names_in(alloc, asked, export, *first, *second)?;
    let title = str::from_utf8(trimmed(title_at(export, *first))).unwrap_or("");
    for (device, count) in names.unnamed.iter() {
        let Some(name) = names.named.get(device.as_slice()) else {
            continue;
        };
        let own = str::from_utf8(device).unwrap_or("");
        let name = str::from_utf8(name).unwrap_or("");
        let words = format!(in alloc;
            "{count} fixes have no {title} and are named '{own}', which is '{name}' in others: are they hers?"
        )?;
        return said.say(alloc, words.as_bytes());
    }
    Ok(())
}

/// Asks about fixes without a name whose device has one in others.
///
/// # Errors
///
/// Memory ran out.
pub(crate) fn tell_blank_names(
    alloc: Global,
    said: &mut Said,
    asked: &Asked<'_>,
    export: &Export<'_>,
) -> Result<(), Refusal>
    ensures { IfErr result IsOfNoFix }
{
    match tell(alloc, said, asked, export) {
        Ok(()) => Ok(()),
        Err(_) => Err(Refusal::out_of_memory(alloc)),
    }
}
