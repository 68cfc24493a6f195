//! Numbers as they are written in a text: in decimal, without leading zeros.
ghost use Rattle.std.specs.Prelude.{◌≡◌, ◌+◌, ◌-◌, ◌*◌, option_map, true};
ghost use Rattle.std.specs.List.{list_all, prefix_len};
ghost use Rattle.std.specs.Str.Parse.{digits_value};
ghost use Rattle.client_script.specs.Parts.{is_digit};
ghost use Rattle.run_check.specs.Shape.{behind_number};
ghost use Rattle.run_check.specs.TextLines.{fitting, is_written, number_behind, number_first, number_of};
ghost use Rattle.run_check.specs.Views.{numbered_of};

use crate::behind::behind;

/// A number that bytes begin with, and what follows its digits.
#[derive(Clone, Copy)]
pub(crate) struct Numbered<'a> {
    pub(crate) number: u64,
    pub(crate) rest: &'a [u8],
}

/// Whether digits are those of a number as it is written: there is one, and no zero before others.
fn is_written(digits: &[u8]) -> bool
    ensures { result ≡ is_written digits.now }
{
    match digits.len() {
        0 => false,
        1 => true,
        _ => digits[0] != b'0',
    }
}

/// The number with one more digit behind its own, where it fits.
fn with_digit(value: u64, digit: u8) -> Option<u64>
    requires { is_digit digit ≡ true }
    ensures { result ≡ fitting (value * 10 + (digit - 48)) }
{
    let tens = value.checked_mul(10)?;
    tens.checked_add(u64::from(digit - b'0'))
}

/// The number that digits write, where it fits.
fn value_of(digits: &[u8]) -> Option<u64>
    requires { list_all is_digit digits.now ≡ true }
    ensures { result ≡ fitting (digits_value 10 digits.now) }
{
    let mut value: u64 = 0;
    for digit in digits {
        match with_digit(value, *digit) {
            Some(next) => value = next,
            None => return None,
        }
    }
    Some(value)
}

/// The number that digits write, none where they aren't those of a number as it is written, or where
/// it doesn't fit.
fn number_of(digits: &[u8]) -> Option<u64>
    requires { list_all is_digit digits.now ≡ true }
    ensures { result ≡ number_of digits.now }
{
    if is_written(digits) {
        value_of(digits)
    } else {
        None
    }
}

/// How many digits bytes begin with.
fn digits_len(bytes: &[u8]) -> usize
    ensures { result ≡ prefix_len is_digit bytes.now }
{
    bytes.iter().take_while(|byte| is_digit(**byte)).count()
}

/// The number that bytes begin with.
pub(crate) fn number_first(bytes: &[u8]) -> Option<Numbered<'_>>
    ensures { option_map numbered_of result ≡ number_first bytes.now }
{
    let (digits, rest) = bytes.split_at(digits_len(bytes));
    match number_of(digits) {
        Some(number) => Some(Numbered { number, rest }),
        None => None,
    }
}

/// Whether a byte is a digit.
fn is_digit(byte: u8) -> bool
    ensures { result ≡ is_digit byte }
{
    matches!(byte, b'0'..=b'9')
}

/// The number that follows a word.
pub(crate) fn number_behind(word: &[u8], bytes: &[u8]) -> Option<u64>
    ensures { result ≡ number_behind word.now bytes.now }
{
    let rest = behind(word, bytes)?;
    let found = number_first(rest)?;
    Some(found.number)
}

/// What follows this number.
pub(crate) fn behind_number(number: u64, bytes: &[u8]) -> Option<&[u8]>
    ensures { option_map (λ rest. rest.now) result ≡ behind_number number bytes.now }
{
    let found = number_first(bytes)?;
    if found.number == number {
        Some(found.rest)
    } else {
        None
    }
}
