//! Reading UUIDs (RFC 9562), and starts of them.
ghost use Rattle.std.specs.Prelude.{◌≡◌, ◌+◌, ◌<◌, ◌≤◌, ◌∷◌, [], length, option_map, MatchOption};
ghost use Rattle.std.specs.Prelude.{IfSome, None};
ghost use Rattle.uuid.specs.Text.{parsed_hyphenated, hex_digit_value};
ghost use Rattle.mdb_encode.specs.Arguments.{uuid_start, hex_bytes};
ghost use Rattle.mdb_encode.specs.Bytes.{Bytes};
ghost use Rattle.mdb_encode.specs.inner.UuidStart.{digits_in, start_bytes, hex_after, IsRun};

use crate::fixed::Start;
use uuid::Uuid;

/// Bytes that are read from hexadecimal digits, and the first digit of the next one.
#[derive(Clone, Copy)]
struct HexRun {
    /// The bytes, of which the first `len` are read.
    bytes: [u8; 18],
    /// How many whole bytes were read.
    len: usize,
    /// The value of the first digit of the next byte, where it was read.
    high: Option<u8>,
}

/// The bytes of a hyphenated UUID, in either case.
pub(crate) fn parse_uuid(text: &str) -> Option<[u8; 16]>
    ensures { result ≡ parsed_hyphenated text.now }
{
    if text.len() != 36 {
        return None;
    }
    match Uuid::parse_str(text) {
        Ok(id) => Some(id.into_bytes()),
        Err(_) => None,
    }
}

/// The bytes of the start of a UUID: at most 36 characters, of which at most four are hyphens, and
/// an even number are hexadecimal digits of either case.
pub(crate) fn parse_start(text: &str) -> Option<Start>
    ensures { option_map start_bytes result ≡ uuid_start text.now }
{
    let bytes = text.as_bytes();
    if bytes.len() > 36 {
        return None;
    }
    if bytes.iter().filter(|byte| **byte == b'-').count() > 4 {
        return None;
    }
    parse_digits(bytes)
}

/// The bytes of the digits in a text, where all but its hyphens are digits.
fn parse_digits(text: &[u8]) -> Option<Start>
    requires { length text.now ≤ 36 }
    ensures { option_map start_bytes result ≡ hex_bytes (digits_in text.now) }
{
    let mut run = HexRun {
        bytes: [0; 18],
        len: 0,
        high: None,
    };
    for (count, byte) in text.iter().enumerate() {
        run = with_byte(run, *byte, count)?;
    }
    match run.high {
        Some(_) => None,
        None => {
            let bytes = run.bytes;
            Some(Start {
                bytes,
                len: run.len,
            })
        }
    }
}

/// One character more, behind at most `count` digits. It is a hyphen or a digit.
fn with_byte(run: HexRun, byte: u8, count: usize) -> Option<HexRun>
    requires run { IsRun count run }
    requires room { count < 36 }
    ensures run { IfSome result (IsRun (count + 1)) }
    ensures bytes { (rest : Bytes) → MatchOption result
        (hex_after run (digits_in (byte ∷ rest)) ≡ None)
        (λ next. hex_after run (digits_in (byte ∷ rest)) ≡ hex_after next (digits_in rest)) }
{
    if byte == b'-' {
        return Some(run);
    }
    let digit = hex_digit(byte)?;
    let mut bytes = run.bytes;
    match run.high {
        None => Some(HexRun {
            bytes,
            len: run.len,
            high: Some(digit),
        }),
        Some(high) => {
            bytes[run.len] = 16 * high + digit;
            Some(HexRun {
                bytes,
                len: run.len + 1,
                high: None,
            })
        }
    }
}

/// The value of a hexadecimal digit, of either case.
fn hex_digit(byte: u8) -> Option<u8>
    ensures value { result ≡ hex_digit_value byte }
    ensures small { IfSome result (λ digit. digit < 16) }
{
    match byte {
        b'0'..=b'9' => Some(byte - b'0'),
        b'a'..=b'f' => Some(byte - b'a' + 10),
        b'A'..=b'F' => Some(byte - b'A' + 10),
        _ => None,
    }
}
