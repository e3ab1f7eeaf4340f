//! The whole numbers and truth values that texts spell.

ghost use Rattle.std.specs.Prelude.{◌≡◌, ◌≤◌, ◌^◌, length, IfSome};
ghost use Rattle.std.specs.List.{prefix_len, list_all};
ghost use Rattle.std.specs.Char.{is_ascii_digit};
ghost use Rattle.eds_base.specs.Numbers.{decimal_value, is_zero as zero_digit, are_zeros as zeros_form, is_empty_fraction as empty_fraction, up_to_limit, magnitude as magnitude_of, whole_number as whole_in, is_open_fraction as open_fraction, is_fraction as fraction_form, is_decimal_fraction as decimal_fraction, flag_value as flag_in};

// ---- whole numbers

fn count_digits(octets: &[u8]) -> usize
    ensures digits { result ≡ prefix_len is_ascii_digit octets.now }
    ensures within { result ≤ length octets.now }
{
    for (count, octet) in octets.iter().enumerate() {
        if !octet.is_ascii_digit() {
            return count;
        }
    }
    octets.len()
}

fn all_digits(octets: &[u8]) -> bool
    ensures { result ≡ list_all is_ascii_digit octets.now }
{
    octets.iter().all(|c| c.is_ascii_digit())
}

fn all_zeros(octets: &[u8]) -> bool
    ensures { result ≡ list_all zero_digit octets.now }
{
    octets.iter().all(|c| *c == b'0')
}

fn are_zeros(octets: &[u8]) -> bool
    ensures { result ≡ zeros_form octets.now }
{
    match octets {
        [] => false,
        [_, ..] => all_zeros(octets),
    }
}

// Nothing, or a point and one or more zeros.
fn is_empty_fraction(octets: &[u8]) -> bool
    ensures { result ≡ empty_fraction octets.now }
{
    match octets {
        [] => true,
        [first, rest @ ..] => *first == b'.' && are_zeros(rest),
    }
}

const LIMIT: u128 = 18_446_744_073_709_551_616;

// The number that digits spell, where it is at most 2^64.
fn bounded_value(digits: &[u8]) -> Option<u128>
    ensures value { result ≡ up_to_limit (decimal_value 0 digits.now) }
    ensures small { IfSome result (λ n. n ≤ 2 ^ 64) }
{
    let mut value = 0;
    for digit in digits {
        value = 10 * value + digit.saturating_sub(b'0') as u128;
        if value > LIMIT {
            return None;
        }
    }
    Some(value)
}

fn magnitude(octets: &[u8]) -> Option<u128>
    ensures value { result ≡ magnitude_of octets.now }
    ensures small { IfSome result (λ n. n ≤ 2 ^ 64) }
{
    let digits = count_digits(octets);
    if digits == 0 || digits > 20 || !is_empty_fraction(&octets[digits..]) {
        return None;
    }
    bounded_value(&octets[..digits])
}

/// The whole number that a text spells: a sign that may be left out, 1 to 20 digits, and then nothing or a
/// point and zeros, from -2^64 to 2^64.
pub fn whole_number(text: &str) -> Option<i128>
    ensures { result ≡ whole_in text.now }
{
    let octets = text.as_bytes();
    match octets {
        [] => None,
        [first, rest @ ..] => {
            if *first == b'+' {
                magnitude(rest).map(|n| n as i128)
            } else if *first == b'-' {
                magnitude(rest).map(|n| -(n as i128))
            } else {
                magnitude(octets).map(|n| n as i128)
            }
        }
    }
}

fn is_open_fraction(octets: &[u8]) -> bool
    ensures { result ≡ open_fraction octets.now }
{
    match octets {
        [] => false,
        [first, rest @ ..] => *first == b'.' && (all_digits(rest) && !all_zeros(rest)),
    }
}

fn is_fraction(octets: &[u8]) -> bool
    ensures { result ≡ fraction_form octets.now }
{
    let digits = count_digits(octets);
    digits > 0 && is_open_fraction(&octets[digits..])
}

/// Whether a text is a sign that may be left out, digits, a point, and digits of which some is not 0.
pub fn is_decimal_fraction(text: &str) -> bool
    ensures { result ≡ decimal_fraction text.now }
{
    let octets = text.as_bytes();
    match octets {
        [] => false,
        [first, rest @ ..] => {
            if *first == b'+' || *first == b'-' {
                is_fraction(rest)
            } else {
                is_fraction(octets)
            }
        }
    }
}

// ---- flags

/// The truth value that a text spells.
pub fn flag_value(text: &str) -> Option<bool>
    ensures { result ≡ flag_in text.now }
{
    if text == "true" || text == "1" {
        Some(true)
    } else if text == "false" || text == "0" {
        Some(false)
    } else {
        None
    }
}
