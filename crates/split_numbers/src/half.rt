// Digits behind a point against one half.

ghost use Rattle.std.specs.Prelude.{◌≡◌, None, Some, if◌then◌else◌, nat_lt};
ghost use Rattle.std.specs.Char.{is_ascii_digit};
ghost use Rattle.std.specs.List.{list_all};
ghost use Rattle.std.specs.Str.Parse.{digits_value};
ghost use Rattle.split_numbers.specs.Digits.{against_half};

use std::cmp::Ordering;

// Whether digits are more than zero; `None` where one is no digit.
fn is_more_than_zero(digits: &[u8]) -> Option<bool>
    ensures { result ≡ (if list_all is_ascii_digit digits.now then Some (nat_lt 0 (digits_value 10 digits.now)) else None) }
{
    let mut more = false;
    for byte in digits {
        if !byte.is_ascii_digit() {
            return None;
        }
        more = more || *byte != b'0';
    }
    Some(more)
}

// Whether the digits behind a point are less than one half, one half or more; `None` where one is no digit.
pub(crate) fn against_half(digits: &[u8]) -> Option<Ordering>
    ensures { result ≡ (if list_all is_ascii_digit digits.now then Some (against_half digits.now) else None) }
{
    let Some((first, others)) = digits.split_first() else {
        return Some(Ordering::Less);
    };
    if !first.is_ascii_digit() {
        return None;
    }
    let more = is_more_than_zero(others)?;
    if *first < b'5' {
        Some(Ordering::Less)
    } else if *first > b'5' {
        Some(Ordering::Greater)
    } else if more {
        Some(Ordering::Greater)
    } else {
        Some(Ordering::Equal)
    }
}
