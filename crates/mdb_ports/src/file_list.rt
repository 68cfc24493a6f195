//! Lists of files.
ghost use Rattle.std.specs.Prelude.{◌≡◌, [], ◌∷◌, ◌++◌, is_ok, if◌then◌else◌, option_map};
ghost use Rattle.mdb_ports.specs.MemFiles.{listed};

use mdb_datum::Text;
use std::alloc::{AllocError, Global};
use std::marker::Model;

/// Files by their names, in the order in which they were listed. It is seen as a list of names and
/// bytes.
#[derive(Drop)]
pub struct FileList {
    files: Vec<(Text, Vec<u8>)>,
}

impl Model for FileList {
    ghost use Rattle.std.specs.Prelude.{List, map};
    ghost use Rattle.mdb_ports.specs.MemFiles.{NamedBytes};

    ghost Value = { List NamedBytes };

    ghost view = { λ l. map (λ f. (f.0, f.1.items)) l.files.items };
}

impl FileList {
    /// An empty list. It takes no memory.
    pub fn new(alloc: Global) -> FileList
        ensures { result ≡ [] }
    {
        FileList {
            files: Vec::new(alloc),
        }
    }

    /// Adds a file at the end: its name and its bytes. After `AllocError` the list is unchanged.
    pub fn push(&mut self, item: (Text, Vec<u8>)) -> Result<(), AllocError>
        ensures { self.new
            ≡ (if is_ok result then self.old ++ (item.0, item.1.items) ∷ [] else self.old) }
    {
        self.files.push(item)?;
        Ok(())
    }

    /// The bytes of the first file of this name, or `None` where there is none. It looks at each
    /// file.
    pub(crate) fn find(&self, name: &str) -> Option<&[u8]>
        ensures { option_map (λ bytes. bytes.now) result ≡ listed self.now name.now }
    {
        for file in &self.files {
            if file.0.as_str() == name {
                return Some(&file.1);
            }
        }
        None
    }
}
