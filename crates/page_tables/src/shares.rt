// Quotients with four decimals.

ghost use Rattle.std.specs.Prelude.{◌≡◌, ◌<◌, ◌++◌, ◌^◌, OnOk};
ghost use Rattle.page_tables.specs.Shares.{share, share_cell};

use crate::doubles::ten_thousandths;
use crate::numbers::push_number;
use std::alloc::AllocError;

// Appends a quotient with four decimals.
fn push_share(text: &mut Vec<u8>, part: u64, whole: u64) -> Result<(), AllocError>
    requires { 0 < whole }
    ensures { OnOk result (text.new.items ≡ text.old.items ++ share part whole) }
{
    let scaled = ten_thousandths(part, whole);
    push_number(text, scaled / 10_000, 4, (scaled % 10_000) as u64)
}

/// Appends the cell of a quotient, if its numbers are known.
#[tactic(auto, unfolding(crate::specs::Shares::share_cell))]
pub(crate) fn push_share_cell(
    text: &mut Vec<u8>,
    part: Option<u64>,
    whole: Option<u64>,
) -> Result<(), AllocError>
    ensures { OnOk result (text.new.items ≡ text.old.items ++ share_cell part whole) }
{
    match (part, whole) {
        (Some(part), Some(whole)) if whole > 0 => push_share(text, part, whole),
        _ => Ok(()),
    }
}
