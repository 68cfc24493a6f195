//! The inputs of `make`.
ghost use Rattle.std.specs.Prelude.{◌≡◌, IfOk};
ghost use Rattle.memdb.specs.inner.MadeInputs.{made_schema, made_scripts};

use crate::made::schema::made_schema;
use crate::made::scripts::made_scripts;
use crate::words::Numbers;
use client_script::Scripts;
use mdb_schema::Schema;
use std::alloc::{AllocError, Global};

/// The schema and the scripts that are made from the numbers. It takes memory for the scripts and
/// for one text at a time, and its only error is want of memory.
pub fn made_inputs(alloc: Global, numbers: &Numbers) -> Result<(Schema, Scripts), AllocError>
    ensures schema { IfOk result (λ made. made.0 ≡ made_schema) }
    ensures scripts { IfOk result (λ made. made.1 ≡ made_scripts numbers.now) }
{
    let schema = made_schema(alloc)?;
    let scripts = made_scripts(alloc, numbers.number(), numbers.clients(), numbers.count())?;
    Ok((schema, scripts))
}
