// How records are read, by the columns of a table and by what is asked.

ghost use Rattle.std.specs.Prelude.{IfErr, IfOk};
ghost use Rattle.split_export.specs.Rules.{AreRules, HasNoRules};

use crate::asked::Asked;
use split_reading::Rules;
use split_titles::Columns;
use std::alloc::Allocator;

/// Why there are no rules for the columns of a table.
#[derive(Clone, Copy, PartialEq, Eq, Debug)]
pub enum NotTaken {
    /// There is no column of the time, and there has to be one.
    NoTime,
}

/// How the records of a table with so many titles are read, where commas may stand before decimals or not.
///
/// # Errors
///
/// There is no column of the time, and there has to be one.
pub fn rules_of<'a, 'b, A: Allocator>(
    columns: &'b Columns<A>,
    width: usize,
    has_commas: bool,
    asked: &Asked<'a>,
) -> Result<Rules<'a, 'b>, NotTaken>
    ensures rules { IfOk result (AreRules columns.now width has_commas asked.now) }
    ensures fault { IfErr result (HasNoRules columns.now asked.now) }
{
    let time = columns.time.as_slice();
    if asked.needs_time && time.is_empty() {
        return Err(NotTaken::NoTime);
    }
    Ok(Rules {
        width,
        missing: asked.missing,
        has_commas,
        animal: columns.animal.as_slice(),
        name: asked.name,
        time,
        is_second: columns.is_second,
        forms: asked.forms,
        clock: asked.clock,
        metres: columns.metres,
        degrees: columns.degrees,
        zone: columns.zone,
        marks: columns.marks,
        sensor: columns.sensor,
        class: columns.argos,
        dop: columns.dop,
        fix_type: columns.fix_type,
        filters: asked.filters,
        unit: asked.unit,
        skips_unnamed: asked.skips_unnamed,
    })
}
