//! The `id` key of a row.
ghost use Rattle.std.specs.Prelude.{◌≡◌, All};
ghost use Rattle.mdb_datum.specs.Pairs.{first_item};
ghost use Rattle.table_index.specs.inner.Keys.{IsShort};

use mdb_encode::Keys;
use std::marker::Model;

/// The key of a row in the index `id`, of at most 1,024 bytes, seen as the list of these bytes.
#[derive(Drop)]
pub(crate) struct IdKey {
    /// The keys of the row there, of which the first is meant.
    keys: Keys,
}

impl Model for IdKey {
    ghost use Rattle.std.specs.Prelude.{List, ℕ};

    ghost Value = { List ℕ };

    ghost use Rattle.table_index.specs.inner.Views.{id_view, IsIdKey};

    ghost view = { id_view };

    ghost invariant = { IsIdKey };
}

impl IdKey {
    /// The first of a row's keys in the index `id`, if there is one. It takes no memory.
    pub(crate) fn of(keys: Keys) -> Option<IdKey>
        requires { All IsShort keys }
        ensures { result ≡ first_item keys }
    {
        if keys.len() == 0 {
            return None;
        }
        Some(IdKey { keys })
    }

    /// The bytes.
    pub(crate) fn bytes(&self) -> &[u8]
        ensures bytes { result.now ≡ self.now }
        ensures short { IsShort result.now }
    {
        let Some(key) = self.keys.get(0) else {
            unreachable!();
        };
        key.bytes()
    }
}
