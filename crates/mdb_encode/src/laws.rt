//! What the keys are for, as laws of their definitions. Each function does nothing: its contract is
//! the law.
ghost use Rattle.std.specs.Prelude.{ℕ};
ghost use Rattle.mdb_encode.specs.Indexer.{uint, sint, truth};
ghost use Rattle.mdb_encode.specs.Keys.{unsigned_key, signed_key};
ghost use Rattle.mdb_encode.specs.Laws.{KeepOrder, NoneInside, PrefixesBegin, TellsText};
ghost use Rattle.mdb_encode.specs.Laws.{TellsMember, TellsUuid, EachLawful};

/// Each kind that exists is one that a schema may name.
pub fn kinds_are_lawful()
    ensures { EachLawful }
{}

/// Numbers of one width stand in the order of their keys, whether they have a sign or not.
pub fn numbers_keep_their_order()
    ensures unsigned { KeepOrder unsigned_key }
    ensures signed { KeepOrder signed_key }
{}

/// Of two texts without the character 00 neither key is a proper prefix of the other.
pub fn no_text_key_begins_another()
    ensures { NoneInside }
{}

/// The exact key of a text begins with the prefix form of each of the text's prefixes.
pub fn prefixes_begin_keys()
    ensures { PrefixesBegin }
{}

/// Rows with the same single key have the same member: a text but for the letters that are folded,
/// and a UUID as its bytes.
pub fn keys_tell_members()
    ensures texts { TellsText }
    ensures unsigned { (width : ℕ) → TellsMember (λ name. uint name width) }
    ensures signed { (width : ℕ) → TellsMember (λ name. sint name width) }
    ensures truths { TellsMember truth }
    ensures uuids { TellsUuid }
{}
