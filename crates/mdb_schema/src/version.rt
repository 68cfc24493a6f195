//! The versions of the format of schema files, by their numbers.
ghost use Rattle.std.specs.Prelude.{◌≡◌};
ghost use Rattle.mdb_schema.specs.Version.{version_numbered};

/// A version of the format.
#[derive(Clone, Copy)]
pub(crate) enum Version {
    /// 1: no table is tracked.
    One,
    /// 2: a table may be tracked.
    Two,
}

/// The version of this number.
pub(crate) fn version_numbered(number: i128) -> Option<Version>
    ensures { result ≡ version_numbered number }
{
    match number {
        1 => Some(Version::One),
        2 => Some(Version::Two),
        _ => None,
    }
}
