// Products of lengths.

ghost use Rattle.std.specs.Prelude.{◌<◌, ◌≤◌, ◌^◌};
ghost use Rattle.page_drawing.specs.Bounds.{IsWithin};

// So many lengths.
pub(crate) fn lengths(count: u64, unit: u64) -> u128
    requires count { count ≤ 2 ^ 50 }
    requires unit { unit ≤ 2 ^ 50 }
    ensures most { result ≤ 2 ^ 100 }
    ensures some { 0 < count → 0 < unit → 0 < result }
{
    u128::from(count) * u128::from(unit)
}

// A length in so many times smaller units.
pub(crate) fn parts(length: u128, count: u32) -> u128
    requires length { length ≤ 2 ^ 104 }
    requires count { count ≤ 2 ^ 17 }
{
    length * u128::from(count)
}

// A small length, so many times.
pub(crate) fn small(length: u16, count: u8) -> i64
    ensures { IsWithin (2 ^ 24) result }
{
    i64::from(length) * i64::from(count)
}

// So many lengths, with a minus or without one.
pub(crate) fn times(count: i64, unit: u64) -> i128
    requires count { IsWithin (2 ^ 50) count }
    requires unit { unit ≤ 2 ^ 50 }
    ensures { IsWithin (2 ^ 100) result }
{
    let size = lengths(count.unsigned_abs(), unit) as i128;
    if count < 0 { -size } else { size }
}
