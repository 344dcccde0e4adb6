// Whether the marks of a record have its fix as used.

ghost use Rattle.std.specs.Prelude.{◌≡◌};
ghost use Rattle.csv.specs.Records.{fields_of};
ghost use Rattle.split_reading.specs.Marks.{is_used_by, is_used_in, mark_in, usage_in};

use crate::cells::truth_in;
use crate::fault::CellFault;
use crate::rules::Rules;
use csv::ByteRecord;

// The truth of a mark, or none where the table does not have it or it is missing.
fn mark_in(
    fields: &ByteRecord,
    column: Option<usize>,
    rules: &Rules<'_, '_>,
) -> Result<Option<bool>, CellFault>
    ensures { result ≡ mark_in rules.now column (fields_of «fields».now) }
{
    match column {
        Some(column) => truth_in(fields, column, rules),
        None => Ok(None),
    }
}

// Whether a fix is used, by a column that has to say so.
fn usage_in(fields: &ByteRecord, column: usize, rules: &Rules<'_, '_>) -> Result<bool, CellFault>
    ensures { result ≡ usage_in rules.now column (fields_of «fields».now) }
{
    match truth_in(fields, column, rules)? {
        Some(truth) => Ok(truth),
        None => Err(CellFault::NoTruth { column }),
    }
}

// Whether a fix is used, by its marks: it is seen, its owner did not mark it as an outlier, and neither the algorithm nor the
// import did, unless its owner marked it as valid.
fn is_used_by(
    visible: Option<bool>,
    manual: Option<bool>,
    algorithm: Option<bool>,
    import: Option<bool>,
    valid: Option<bool>,
) -> bool
    ensures { result ≡ is_used_by visible manual algorithm import valid }
{
    let is_marked = algorithm == Some(true) || import == Some(true);
    visible != Some(false) && manual != Some(true) && (valid == Some(true) || !is_marked)
}

// Whether the marks of a record have its fix as used.
pub(crate) fn is_used_in(fields: &ByteRecord, rules: &Rules<'_, '_>) -> Result<bool, CellFault>
    ensures { result ≡ is_used_in rules.now (fields_of «fields».now) }
{
    let marks = rules.marks;
    if let Some(column) = marks.usage {
        return usage_in(fields, column, rules);
    }
    let visible = mark_in(fields, marks.visible, rules)?;
    let manual = mark_in(fields, marks.manual_outlier, rules)?;
    let algorithm = mark_in(fields, marks.algorithm_outlier, rules)?;
    let import = mark_in(fields, marks.import_outlier, rules)?;
    let valid = mark_in(fields, marks.manual_valid, rules)?;
    Ok(is_used_by(visible, manual, algorithm, import, valid))
}
