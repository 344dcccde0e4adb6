// Counts, areas and shares.

ghost use Rattle.std.specs.Prelude.{◌≡◌, ◌++◌, ◌+◌, ◌*◌, ◌<◌, ◌≤◌, ◌^◌, OnOk, length};
ghost use Rattle.page_text.specs.Figures.{count_with_share, fixes, fixes_word, hectare, hectare_sign, hectares, is_small, share_number, share_of_area, share_of_fixes, square_metre, three_digits, three_places, with_sign};

use crate::bytes::push;
use crate::fixed::{Places, push_fixed};
use range_plane::Scale;
use std::alloc::AllocError;

// What stands for a number that there is not: a dash.
pub(crate) const NOTHING: &[u8] = b"\xE2\x80\x93";

// A blank at which no line ends.
const UNBROKEN: &[u8] = b"\xC2\xA0";

// What stands behind a count of fixes.
fn fixes_word(count: u64) -> &'static str
    ensures { result.now ≡ fixes_word count }
{
    if count == 1 { " fix" } else { " fixes" }
}

/// Appends a count of fixes.
///
/// # Errors
///
/// Memory ran out.
pub fn push_fixes(text: &mut Vec<u8>, count: u64) -> Result<(), AllocError>
    ensures { OnOk result (text.new.items ≡ text.old.items ++ fixes count) }
{
    push_fixed(text, u128::from(count), 1, Places::Whole)?;
    push(text, fixes_word(count))
}

// The places of a quotient that has three digits, or all that stand before its point.
fn three_places(part: u128, whole: u128) -> Places
    requires { whole < 2 ^ 110 }
    ensures { result ≡ three_places part whole }
{
    if part >= 100 * whole {
        Places::Whole
    } else if part >= 10 * whole {
        Places::Tenths
    } else {
        Places::Hundredths
    }
}

/// Appends a quotient with three digits, or all that stand before its point.
///
/// # Errors
///
/// Memory ran out.
#[tactic(auto, unfolding(crate::specs::Figures::three_digits))]
pub fn push_three_digits(text: &mut Vec<u8>, part: u128, whole: u128) -> Result<(), AllocError>
    requires some { 0 < whole }
    requires part { part < 2 ^ 110 }
    requires whole { whole < 2 ^ 110 }
    ensures { OnOk result (text.new.items ≡ text.old.items ++ three_digits part whole) }
{
    push_fixed(text, part, whole, three_places(part, whole))
}

/// How much doubled area a hectare has.
pub fn hectare(unit: Scale) -> u128
    ensures value { result ≡ hectare unit }
    ensures some { 0 < result }
    ensures most { result ≤ 2_000_000 }
{
    match unit {
        Scale::Metre => 20_000,
        Scale::Decimetre => 2_000_000,
    }
}

// How much doubled area a square metre has.
fn square_metre(unit: Scale) -> u128
    ensures value { result ≡ square_metre unit }
    ensures some { 0 < result }
    ensures most { result ≤ 200 }
{
    match unit {
        Scale::Metre => 2,
        Scale::Decimetre => 200,
    }
}

// Whether a doubled area is below a hectare and not nothing.
fn is_small(area2: u128, unit: Scale) -> bool
    ensures { result ≡ is_small area2 unit }
{
    0 < area2 && area2 < hectare(unit)
}

/// Appends a doubled area as a number of hectares, or of square metres with their sign.
///
/// # Errors
///
/// Memory ran out.
#[tactic(auto, unfolding(crate::specs::Figures::hectares))]
pub fn push_hectares(text: &mut Vec<u8>, area2: u128, unit: Scale) -> Result<(), AllocError>
    requires { area2 < 2 ^ 100 }
    ensures { OnOk result (text.new.items ≡ text.old.items ++ hectares area2 unit) }
{
    if is_small(area2, unit) {
        push_three_digits(text, area2, square_metre(unit))?;
        text.extend_from_slice(b" m\xC2\xB2")
    } else if area2 == 0 {
        push(text, "0")
    } else {
        push_three_digits(text, area2, hectare(unit))
    }
}

// The sign of hectares, where a number of square metres has not its own.
fn hectare_sign(small: bool) -> &'static str
    ensures { result.now ≡ hectare_sign small }
{
    if small { "" } else { " ha" }
}

/// Appends a doubled area with the sign of its unit.
///
/// # Errors
///
/// Memory ran out.
pub fn push_with_sign(text: &mut Vec<u8>, area2: u128, unit: Scale) -> Result<(), AllocError>
    requires { area2 < 2 ^ 100 }
    ensures { OnOk result (text.new.items ≡ text.old.items ++ with_sign area2 unit) }
{
    push_hectares(text, area2, unit)?;
    push(text, hectare_sign(is_small(area2, unit)))
}

// Appends a share of fixes in whole per cent, without its sign; what is neither nothing nor all is not written so.
fn push_share_number(text: &mut Vec<u8>, count: u64, all: u64) -> Result<(), AllocError>
    requires { 0 < all }
    ensures { OnOk result (text.new.items ≡ text.old.items ++ share_number count all) }
{
    let (part, whole) = (u128::from(count), u128::from(all));
    if 0 < part && 200 * part < whole {
        push(text, "<1")
    } else if part < whole && 200 * (whole - part) <= whole {
        push(text, ">99")
    } else {
        push_fixed(text, 100 * part, whole, Places::Whole)
    }
}

/// Appends a share of fixes in whole per cent.
///
/// # Errors
///
/// Memory ran out.
pub fn push_share_of_fixes(text: &mut Vec<u8>, count: u64, all: u64) -> Result<(), AllocError>
    requires { 0 < all }
    ensures { OnOk result (text.new.items ≡ text.old.items ++ share_of_fixes count all) }
{
    push_share_number(text, count, all)?;
    push(text, " %")
}

/// Appends a count of fixes with its share, or 0 alone.
///
/// # Errors
///
/// Memory ran out.
pub fn push_count_with_share(text: &mut Vec<u8>, count: u64, all: u64) -> Result<(), AllocError>
    requires { 0 < all }
    ensures { OnOk result (text.new.items ≡ text.old.items ++ count_with_share count all) }
{
    if count == 0 {
        return push(text, "0");
    }
    push_fixed(text, u128::from(count), 1, Places::Whole)?;
    push(text, " (")?;
    push_share_number(text, count, all)?;
    text.extend_from_slice(UNBROKEN)?;
    push(text, "%)")
}

/// Appends a share of an area in tenths of a per cent, or a dash where there is no area.
///
/// # Errors
///
/// Memory ran out.
pub fn push_share_of_area(text: &mut Vec<u8>, part: u128, whole: u128) -> Result<(), AllocError>
    requires part { part < 2 ^ 100 }
    requires whole { whole < 2 ^ 100 }
    ensures { OnOk result (text.new.items ≡ text.old.items ++ share_of_area part whole) }
{
    if whole == 0 {
        return text.extend_from_slice(NOTHING);
    }
    push_fixed(text, 100 * part, whole, Places::Tenths)?;
    push(text, " %")
}
