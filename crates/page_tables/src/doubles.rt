// Quotients as numbers of 53 binary digits round them.

ghost use Rattle.std.specs.Prelude.{◌≡◌, ◌+◌, ◌*◌, ◌<◌, ◌≤◌, ◌^◌};
ghost use Rattle.page_tables.specs.Doubles.{doubled, even_rounded, is_full, last_place, ten_thousandths, times_ten_thousand};

// How often a part is doubled at most.
const MOST_DOUBLINGS: u8 = 120;

// A part that was doubled, and by how much it was multiplied.
#[derive(Clone, Copy)]
pub(crate) struct Multiple {
    pub part: u128,
    pub power: u128,
}

// A quotient rounded to a whole number, a half to the even one.
fn even_rounded(part: u128, whole: u128) -> u128
    requires some { 0 < whole }
    requires part { part < 2 ^ 120 }
    requires whole { whole < 2 ^ 120 }
    ensures { result ≡ even_rounded part whole }
{
    let (below, rest) = (part / whole, part % whole);
    if 2 * rest < whole || (2 * rest == whole && below % 2 == 0) {
        below
    } else {
        below + 1
    }
}

// Whether the quotient of a part has 53 binary digits.
fn is_full(part: u128, whole: u64) -> bool
    ensures { result ≡ is_full part whole }
{
    part >= (1 << 52) * u128::from(whole)
}

// A part and a power, both doubled until the quotient of the part has 53 binary digits, so often at most.
fn doubled(more: u8, part: u128, whole: u64, power: u128) -> Multiple
    requires whole { 0 < whole }
    requires power { 0 < power }
    requires part { power ≤ part }
    requires most { part < 2 ^ 53 * whole + 2 ^ 64 }
    ensures value { result ≡ doubled more part whole power }
    ensures power { 0 < result.power }
    ensures part { result.power ≤ result.part }
    ensures most { result.part < 2 ^ 53 * whole + 2 ^ 64 }
{
    if more == 0 {
        return Multiple { part, power };
    }
    if is_full(part, whole) {
        return Multiple { part, power };
    }
    doubled(more - 1, part * 2, whole, power * 2)
}

// What the last of 53 binary digits of a product counts.
fn last_place(product: u128) -> u128
    ensures value { result ≡ last_place product }
    ensures some { 0 < result }
    ensures most { result ≤ 16_384 }
{
    if product < 1 << 66 { 1 << 13 } else { 1 << 14 }
}

// Ten thousand times a number of 53 digits, rounded to as many.
fn times_ten_thousand(scaled: u128) -> u128
    requires { scaled < 2 ^ 66 }
    ensures value { result ≡ times_ten_thousand scaled }
    ensures most { result < 2 ^ 90 }
{
    let product = 10_000 * scaled;
    let last = last_place(product);
    even_rounded(product, last) * last
}

/// How many ten thousandths a quotient is, rounded as numbers of 53 binary digits are.
pub(crate) fn ten_thousandths(part: u64, whole: u64) -> u128
    requires { 0 < whole }
    ensures { result ≡ ten_thousandths part whole }
{
    if part == 0 {
        return 0;
    }
    let doubled = doubled(MOST_DOUBLINGS, u128::from(part), whole, 1);
    let scaled = even_rounded(doubled.part, u128::from(whole));
    even_rounded(times_ten_thousand(scaled), doubled.power)
}
