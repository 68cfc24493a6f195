//! The schema of made inputs.
ghost use Rattle.std.specs.Prelude.{◌≡◌, IfOk};
ghost use Rattle.memdb.specs.inner.MadeInputs.{made_schema};

use mdb_schema::{Schema, SchemaError, read_schema};
use std::alloc::{AllocError, Global};

/// The text of the schema: the table `items`, with its indexes `age` and `id`.
const SCHEMA: &[u8] = b"{\"memdb\":1,\"tables\":{\"items\":{\"indexes\":{\
    \"age\":{\"unique\":false,\"indexer\":{\"kind\":\"uint\",\"field\":\"age\",\"width\":2}},\
    \"id\":{\"unique\":true,\"indexer\":{\"kind\":\"text\",\"field\":\"name\"}}}}}}";

/// The schema that this text is read as. Its only error is want of memory.
pub(crate) fn made_schema(alloc: Global) -> Result<Schema, AllocError>
    ensures { IfOk result (λ s. s ≡ made_schema) }
{
    match read_schema(alloc, SCHEMA) {
        Ok(schema) => Ok(schema),
        Err(SchemaError::Memory) => Err(AllocError),
        Err(SchemaError::Broken { .. }) => unreachable!(),
    }
}
