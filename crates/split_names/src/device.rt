// Names of devices of Windows.

ghost use Rattle.std.specs.Prelude.{◌≡◌, ◌<◌, IfSome, length};
ghost use Rattle.split_names.specs.Device.{is_device, is_device_word, is_port, is_port_number, is_word, ends_word, next_sign, stop_in};

// Whether a word is this one, in capital or small letters of ASCII.
fn is_word(word: &[u8], other: &[u8]) -> bool
    ensures { result ≡ is_word word.now other.now }
{
    word.eq_ignore_ascii_case(other)
}

// Whether bytes are a digit, or `¹`, `²` or `³`.
fn is_port_number(bytes: &[u8]) -> bool
    ensures { result ≡ is_port_number bytes.now }
{
    match bytes {
        [digit] => digit.is_ascii_digit(),
        [first, second] => {
            *first == 0xC2 && (*second == 0xB9 || *second == 0xB2 || *second == 0xB3)
        }
        _ => false,
    }
}

// Whether a word is `com` or `lpt` with such a number behind it.
fn is_port(word: &[u8]) -> bool
    ensures { result ≡ is_port word.now }
{
    let (kind, number) = word.split_at(word.len().min(3));
    (is_word(kind, b"com") || is_word(kind, b"lpt")) && is_port_number(number)
}

// Whether a word is that of a device.
fn is_device_word(word: &[u8]) -> bool
    ensures { result ≡ is_device_word word.now }
{
    is_word(word, b"con")
        || is_word(word, b"prn")
        || is_word(word, b"aux")
        || is_word(word, b"nul")
        || is_word(word, b"conin$")
        || is_word(word, b"conout$")
        || is_port(word)
}

// Where the first point or blank of a name stands.
fn stop_in(name: &[u8]) -> Option<usize>
    ensures place { result ≡ stop_in name.now }
    ensures within { IfSome result (λ stop. stop < length name.now) }
{
    name.iter().position(|byte| *byte == b'.' || *byte == b' ')
}

// The first byte that is no blank.
fn next_sign(bytes: &[u8]) -> Option<u8>
    ensures { result ≡ next_sign bytes.now }
{
    bytes.iter().copied().find(|byte| *byte != b' ')
}

// Whether blanks that stand here, or none, end the name or come before a point.
fn ends_word(behind: &[u8]) -> bool
    ensures { result ≡ ends_word behind.now }
{
    match next_sign(behind) {
        None => true,
        Some(sign) => sign == b'.',
    }
}

// Whether a name is that of a device, alone or before a point, perhaps with blanks between.
#[tactic(auto, unfolding(crate::specs::Device::is_device))]
pub(crate) fn is_device(name: &[u8]) -> bool
    ensures { result ≡ is_device name.now }
{
    let Some(stop) = stop_in(name) else {
        return is_device_word(name);
    };
    is_device_word(&name[..stop]) && ends_word(&name[stop..])
}
