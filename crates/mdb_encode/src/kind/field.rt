//! Names of members.
ghost use Rattle.std.specs.Prelude.{◌≡◌, ◌<◌, length};

use mdb_datum::Text;

/// The name of the member that an index reads. It is not empty.
#[derive(Drop)]
pub struct Field {
    name: Text,
    pub ghost filled: { 0 < length name },
}

impl Field {
    ghost use Rattle.std.specs.Prelude.{Some, None, nat_lt, option_map, if◌then◌else◌};
    ghost use Rattle.mdb_encode.specs.Kind.{name_of};

    /// The field of this name, none where the name is empty.
    pub fn of(name: Text) -> Option<Field>
        ensures { option_map name_of result ≡ (if nat_lt 0 (length name) then Some name else None) }
    {
        if name.as_str().is_empty() {
            None
        } else {
            Some(Field { name })
        }
    }

    /// The name.
    pub fn name(&self) -> &str
        ensures { result.now ≡ name_of self.now }
    {
        self.name.as_str()
    }
}
