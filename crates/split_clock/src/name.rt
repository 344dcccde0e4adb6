// Names of time zones.

ghost use Rattle.std.specs.Prelude.{◌≡◌, ◌≤◌, length};
ghost use Rattle.split_clock.specs.Name.{are_parts, is_name_byte, is_of_machine, is_zone_name};

/// The most bytes that the name of a time zone has.
pub const NAME_LIMIT: usize = 64;

// Whether a name may have such a byte.
fn is_name_byte(byte: u8) -> bool
    ensures { result ≡ is_name_byte byte }
{
    byte.is_ascii_alphanumeric() || byte == b'_' || byte == b'+' || byte == b'-'
}

// Whether bytes are those of a name, and slashes with such a byte before and behind each. `behind_byte` says whether one
// stands before the first.
fn are_parts(behind_byte: bool, name: &[u8]) -> bool
    requires { length name.now ≤ NAME_LIMIT }
    ensures { result ≡ are_parts behind_byte name.now }
{
    match name.split_first() {
        None => behind_byte,
        Some((b'/', others)) if behind_byte => are_parts(false, others),
        Some((byte, others)) if is_name_byte(*byte) => are_parts(true, others),
        Some(_) => false,
    }
}

// Whether a name is of what a machine has, or of its database.
fn is_of_machine(name: &[u8]) -> bool
    ensures { result ≡ is_of_machine name.now }
{
    name == b"localtime".as_slice()
        || name == b"posixrules".as_slice()
        || name == b"Factory".as_slice()
        || name.starts_with(b"posix/")
}

/// Whether a text may be the name of a time zone, and so the path to its file below the folder of the time zone database: one
/// to [`NAME_LIMIT`] letters of ASCII, digits, `_`, `+` and `-`, which single slashes may part. So it has no point, and leads
/// to nothing above that folder. Names below `right` are none, since their seconds are not those since 1970: they count
/// leap seconds. Names of what a machine has, such as `localtime`, and of the database itself are none: they say another zone
/// elsewhere, or none.
pub fn is_zone_name(name: &[u8]) -> bool
    ensures { result ≡ is_zone_name name.now }
{
    name.len() <= NAME_LIMIT
        && are_parts(false, name)
        && !name.starts_with(b"right/")
        && !is_of_machine(name)
}
