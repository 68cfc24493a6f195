//! Whether there are ids for the cells of a write.
ghost use Rattle.std.specs.Prelude.{◌≡◌, true, false};
ghost use Rattle.table_index.specs.Table.{AreLeft, AreSpent};

use radix_node::Ids;

/// The most ids that the write of a row draws. A row has at most 256 keys in each of 32 indexes,
/// the one that it replaces has as many, and a write of a tree draws at most 4,096.
const IDS_A_ROW: u64 = 1 << 26;

/// Whether there are ids for so many rows.
pub(crate) fn has_ids(ids: &Ids, rows: u64) -> bool
    ensures enough { result ≡ true → AreLeft ids.now.next rows }
    ensures few { result ≡ false → AreSpent ids.now.next rows }
{
    rows <= ids.left() / IDS_A_ROW
}
