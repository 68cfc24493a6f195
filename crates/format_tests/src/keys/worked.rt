//! The definitions, computed at worked keys.
ghost use Rattle.mdb_encode.specs.worked.ArgKeys.{ArgKeys};
ghost use Rattle.mdb_encode.specs.worked.RowKeys.{TextKeys, NumberKeys, OtherKeys, LimitedKeys};
ghost use Rattle.mdb_encode.specs.worked.UuidKeys.{UuidKeys};

use mdb_encode::laws;

/// Nothing runs here: the clauses are computed.
fn worked_keys()
    ensures texts { TextKeys }
    ensures numbers { NumberKeys }
    ensures others { OtherKeys }
    ensures limits { LimitedKeys }
    ensures arguments { ArgKeys }
    ensures uuids { UuidKeys }
{}

/// The worked keys and the laws are the contracts of these calls.
#[test]
fn the_definitions_give_the_worked_keys() {
    worked_keys();
    laws::numbers_keep_their_order();
    laws::no_text_key_begins_another();
    laws::prefixes_begin_keys();
    laws::keys_tell_members();
}
