// Cells of tables.

ghost use Rattle.std.specs.Prelude.{◌≡◌, ◌++◌, OnOk, decimal};
ghost use Rattle.page_tables.specs.Lines.{behind_comma, name_cell};
ghost use Rattle.page_tables.specs.Numbers.{hectares};
ghost use Rattle.page_tables.specs.Times.{time_cell};

use crate::numbers::push_hectares;
use crate::times::push_time_cell;
use page_text::{push_cell, push_whole};
use range_plane::Scale;
use std::alloc::AllocError;

/// A count that may be known.
pub(crate) fn wide(count: Option<usize>) -> Option<u64>
    ensures { result ≡ count }
{
    match count {
        Some(count) => Some(count as u64),
        None => None,
    }
}

/// Appends the cell of a name.
#[tactic(auto, unfolding(crate::specs::Lines::name_cell))]
pub(crate) fn push_name(text: &mut Vec<u8>, name: &[u8]) -> Result<(), AllocError>
    ensures { OnOk result (text.new.items ≡ text.old.items ++ name_cell name.now) }
{
    push_cell(text, name)
}

/// Appends the cell of a whole number behind others.
pub(crate) fn push_behind_whole(text: &mut Vec<u8>, number: u128) -> Result<(), AllocError>
    ensures { OnOk result (text.new.items ≡ text.old.items ++ behind_comma (decimal number)) }
{
    text.extend_from_slice(b",")?;
    push_whole(text, number)
}

/// Appends the cell of a time behind others.
pub(crate) fn push_behind_time(
    text: &mut Vec<u8>,
    dated: bool,
    second: Option<u64>,
) -> Result<(), AllocError>
    ensures { OnOk result (text.new.items ≡ text.old.items ++ behind_comma (time_cell dated second)) }
{
    text.extend_from_slice(b",")?;
    push_time_cell(text, dated, second)
}

/// Appends the cell of a doubled area behind others.
pub(crate) fn push_behind_hectares(
    text: &mut Vec<u8>,
    area2: u128,
    unit: Scale,
) -> Result<(), AllocError>
    ensures { OnOk result (text.new.items ≡ text.old.items ++ behind_comma (hectares area2 unit)) }
{
    text.extend_from_slice(b",")?;
    push_hectares(text, area2, unit)
}
