//! The files that a check names.
ghost use Rattle.std.specs.Prelude.{◌≡◌, true};
ghost use Rattle.std.specs.List.{list_all};
ghost use Rattle.run_io.specs.Named.{may_name_a_file};

use mdb_datum::Text;
use run_io::Named;

/// The files that a check names: the inputs, and an output.
#[derive(Drop)]
pub struct CheckedFiles {
    pub inputs: Named,
    pub output: Text,
    pub ghost plain: { list_all may_name_a_file inputs.clients ≡ true },
}
