//! Numbers that fit a width.
ghost use Rattle.std.specs.Prelude.{◌≡◌, ◌+◌, ◌^◌, option_map};
ghost use Rattle.mdb_encode.specs.Kind.{width_bytes};
ghost use Rattle.mdb_encode.specs.Keys.{big_endian, unsigned_key, signed_key};

use crate::Width;

/// The number, where it is one from 0 on of so many bytes.
pub(crate) fn unsigned_number(value: i128, width: Width) -> Option<u64>
    ensures { option_map (big_endian (width_bytes width)) result
        ≡ unsigned_key (width_bytes width) value }
{
    match u64::try_from(value) {
        Ok(number) if number <= greatest(width) => Some(number),
        _ => None,
    }
}

/// The number moved up by half of the numbers of so many bytes, where it is a signed one of them.
pub(crate) fn signed_number(value: i128, width: Width) -> Option<u64>
    ensures { option_map (big_endian (width_bytes width)) result
        ≡ signed_key (width_bytes width) value }
{
    let half = greatest(width) / 2 + 1;
    match value.checked_add(i128::from(half)) {
        Some(moved) => unsigned_number(moved, width),
        None => None,
    }
}

/// The greatest number of so many bytes.
fn greatest(width: Width) -> u64
    ensures { result + 1 ≡ 256 ^ width_bytes width }
{
    match width {
        Width::One => 0xff,
        Width::Two => 0xffff,
        Width::Four => 0xffff_ffff,
        Width::Eight => u64::MAX,
    }
}
