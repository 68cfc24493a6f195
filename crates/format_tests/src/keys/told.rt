//! What rows and arguments give: keys in hexadecimal, or the word for a refusal. An index is one of
//! a table's, whose schema has its indexer.
use crate::documents::row_of;
use crate::tables::Text;
use mdb_datum::{Datum, Items, Row, Text as Name, read_doc};
use mdb_encode::{ArgError, Field, Key, KeyError, Keys, Kind, arg_key, keys_of, prefix_key};
use mdb_schema::{Schema, read_schema};
use std::alloc::{AllocError, Global};

/// A table whose second index has the indexer at the place of `@`.
const TABLE: &str = r#"{"memdb":1,"tables":{"t":{"indexes":{
"id":{"unique":true,"indexer":{"kind":"text","field":"id"}},"x":{"indexer":@}}}}}"#;

/// The indexers over the member `f`, or over `a` and `b`, by their names.
static INDEXERS: [(&str, &str); 23] = [
    ("text", r#"{"kind":"text","field":"f"}"#),
    ("folded", r#"{"kind":"text","field":"f","lowercase":true}"#),
    ("list", r#"{"kind":"text_list","field":"f"}"#),
    (
        "folded-list",
        r#"{"kind":"text_list","field":"f","lowercase":true}"#,
    ),
    ("map", r#"{"kind":"text_map","field":"f"}"#),
    (
        "folded-map",
        r#"{"kind":"text_map","field":"f","lowercase":true}"#,
    ),
    ("uint1", r#"{"kind":"uint","field":"f","width":1}"#),
    ("uint2", r#"{"kind":"uint","field":"f","width":2}"#),
    ("uint4", r#"{"kind":"uint","field":"f","width":4}"#),
    ("uint8", r#"{"kind":"uint","field":"f","width":8}"#),
    ("int1", r#"{"kind":"int","field":"f","width":1}"#),
    ("int2", r#"{"kind":"int","field":"f","width":2}"#),
    ("int4", r#"{"kind":"int","field":"f","width":4}"#),
    ("int8", r#"{"kind":"int","field":"f","width":8}"#),
    ("bool", r#"{"kind":"bool","field":"f"}"#),
    ("uuid", r#"{"kind":"uuid","field":"f"}"#),
    ("set", r#"{"kind":"field_set","field":"f"}"#),
    (
        "is-null",
        r#"{"kind":"conditional","field":"f","equals":null}"#,
    ),
    ("is-one", r#"{"kind":"conditional","field":"f","equals":1}"#),
    (
        "is-on",
        r#"{"kind":"conditional","field":"f","equals":"on"}"#,
    ),
    (
        "pair",
        r#"{"kind":"compound","parts":[{"kind":"text","field":"a"},{"kind":"text","field":"b"}]}"#,
    ),
    // The key may end at a missing part.
    (
        "open-pair",
        r#"{"kind":"compound","allow_missing":true,
"parts":[{"kind":"text","field":"a"},{"kind":"text","field":"b"}]}"#,
    ),
    (
        "mixed",
        r#"{"kind":"compound",
"parts":[{"kind":"text","field":"a"},{"kind":"uint","field":"b","width":1}]}"#,
    ),
];

/// The indexer of a name. There is none of another name, and then no schema.
fn indexer_of(name: &str) -> &'static str {
    for (known, indexer) in &INDEXERS {
        if name == *known {
            return indexer;
        }
    }
    "none"
}

/// The schema of a table with this index. Where there is none it counts as want of memory, which
/// ends a test.
fn schema_of(alloc: Global, index: &str) -> Result<Schema, AllocError> {
    let file = TABLE.replace(alloc, "@", indexer_of(index))?;
    match read_schema(alloc, file.as_bytes()) {
        Ok(schema) => Ok(schema),
        Err(_) => Err(AllocError),
    }
}

/// The kind of that index.
fn kind_in(schema: &Schema) -> Option<&Kind> {
    Some(schema.table(0)?.index(1)?.kind())
}

/// The arguments of a list. Another text counts as want of memory, which ends a test.
fn items_of(alloc: Global, text: &str) -> Result<Items, AllocError> {
    match read_doc(alloc, text.as_bytes()) {
        Ok(Datum::Items(items)) => Ok(items),
        _ => Err(AllocError),
    }
}

/// Adds the bytes of a key in hexadecimal.
fn push_hex(text: &mut String, key: &Key) -> Result<(), AllocError> {
    for byte in key.bytes() {
        write!(text, "{byte:02x}")?;
    }
    Ok(())
}

/// The bytes of a key in hexadecimal, or that it has none.
fn hex(alloc: Global, key: &Key) -> Text {
    let mut text = String::new(alloc);
    push_hex(&mut text, key)?;
    or_none(text)
}

/// A text, or `none` where it is empty.
fn or_none(mut text: String) -> Text {
    if text.is_empty() {
        text.push_str("none")?;
    }
    Ok(text)
}

/// Adds a key in hexadecimal, and a semicolon.
fn push_key(text: &mut String, key: &Key) -> Result<(), AllocError> {
    push_hex(text, key)?;
    text.push(';')
}

/// The keys in hexadecimal, each before a semicolon, or that there are none.
fn hex_of_each(alloc: Global, keys: &Keys) -> Text {
    let mut text = String::new(alloc);
    for key in keys.iter() {
        push_key(&mut text, key)?;
    }
    or_none(text)
}

/// The word for a row's refusal.
fn row_word(error: KeyError) -> &'static str {
    match error {
        KeyError::Memory => "Memory",
        KeyError::WrongKind => "WrongKind",
        KeyError::OutOfRange => "OutOfRange",
        KeyError::BadUuid => "BadUuid",
        KeyError::TooMany => "TooMany",
        KeyError::TooLong => "TooLong",
    }
}

/// The word for the refusal of arguments.
fn arg_word(error: ArgError) -> &'static str {
    match error {
        ArgError::Memory => "Memory",
        ArgError::ArgCount => "ArgCount",
        ArgError::ArgKind => "ArgKind",
        ArgError::OutOfRange => "OutOfRange",
        ArgError::BadUuid => "BadUuid",
        ArgError::TooLong => "TooLong",
        ArgError::NoPrefixForm => "NoPrefixForm",
    }
}

/// What keys are told as.
fn keys_text(alloc: Global, keys: Result<Keys, KeyError>) -> Text {
    match keys {
        Ok(keys) => hex_of_each(alloc, &keys),
        Err(KeyError::Memory) => Err(AllocError),
        Err(error) => String::from_str(alloc, row_word(error)),
    }
}

/// What a key is told as.
fn key_text(alloc: Global, key: Result<Key, ArgError>) -> Text {
    match key {
        Ok(key) => hex(alloc, &key),
        Err(ArgError::Memory) => Err(AllocError),
        Err(error) => String::from_str(alloc, arg_word(error)),
    }
}

/// What the keys of a row in the index of a schema are told as.
fn keys_told(alloc: Global, schema: &Schema, row: &Row) -> Text {
    match kind_in(schema) {
        Some(kind) => keys_text(alloc, keys_of(alloc, kind, row)),
        None => String::from_str(alloc, "no index"),
    }
}

/// The same in an index of this name, of a row that is read from its text.
pub fn row_told(alloc: Global, index: &str, text: &str) -> Text {
    let schema = schema_of(alloc, index)?;
    let row = row_of(alloc, text)?;
    keys_told(alloc, &schema, &row)
}

/// The key of arguments, exact or in the prefix form.
fn key_of(alloc: Global, kind: &Kind, is_prefix: bool, args: &Items) -> Result<Key, ArgError> {
    if is_prefix {
        prefix_key(alloc, kind, args)
    } else {
        arg_key(alloc, kind, args)
    }
}

/// What that is told as in an index of this name.
pub fn key_told(alloc: Global, index: &str, is_prefix: bool, args: &Items) -> Text {
    let schema = schema_of(alloc, index)?;
    match kind_in(&schema) {
        Some(kind) => key_text(alloc, key_of(alloc, kind, is_prefix, args)),
        None => String::from_str(alloc, "no index"),
    }
}

/// The same of arguments that are read from their text.
pub fn args_told(alloc: Global, index: &str, is_prefix: bool, text: &str) -> Text {
    let args = items_of(alloc, text)?;
    key_told(alloc, index, is_prefix, &args)
}

/// The name that a field of this name tells, or that there is none.
pub fn field_told(alloc: Global, name: &str) -> Text {
    match Field::of(Name::of(alloc, name)?) {
        Some(field) => String::from_str(alloc, field.name()),
        None => String::from_str(alloc, "none"),
    }
}
