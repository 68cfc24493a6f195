//! Widths of numbers.
ghost use Rattle.std.specs.Prelude.{◌≡◌};
ghost use Rattle.mdb_encode.specs.Kind.{width_bytes, width_numbered};
ghost use Rattle.mdb_encode.specs.Lawful.{IsWidth};

/// How many bytes a number is written in.
#[derive(Clone, Copy, Debug, PartialEq, Eq)]
pub enum Width {
    /// 1 byte.
    One,
    /// 2 bytes.
    Two,
    /// 4 bytes.
    Four,
    /// 8 bytes.
    Eight,
}

impl Width {
    /// The width of this number of bytes, none where it is not 1, 2, 4 or 8.
    pub fn of(bytes: i128) -> Option<Width>
        ensures { result ≡ width_numbered bytes }
    {
        match bytes {
            1 => Some(Width::One),
            2 => Some(Width::Two),
            4 => Some(Width::Four),
            8 => Some(Width::Eight),
            _ => None,
        }
    }

    /// The number of bytes.
    pub fn bytes(self) -> u8
        ensures number { result ≡ width_bytes self }
        ensures lawful { IsWidth result }
    {
        match self {
            Width::One => 1,
            Width::Two => 2,
            Width::Four => 4,
            Width::Eight => 8,
        }
    }
}
