//! A table as a plain list of rows, each with its keys. A question looks at each entry of its
//! index.

use super::played::{query_of, question_of};
use super::told::{tell_answer, tell_put, tell_removed, tell_wipe};
use super::{Done, row_of};
use mdb_datum::Row;
use mdb_encode::{ArgError, Key, KeyError, Keys, arg_key, keys_of, prefix_key};
use mdb_schema::{Answer, Ask, AskError, IndexDef, Query, Rows, TableDef, WriteError};
use std::alloc::{AllocError, Global};
use std::collections::BTreeMap;
use table_index::WipeError;

/// A full key of a row in the index at a place.
#[derive(Drop, PartialEq)]
struct FullKey {
    place: usize,
    bytes: Vec<u8>,
}

/// A row, its `id` key and its full keys, in the order of the indexes.
#[derive(Drop)]
struct PlainRow {
    id: Vec<u8>,
    keys: Vec<FullKey>,
    row: Row,
}

/// Rows in no order.
#[derive(Drop)]
pub struct PlainTable {
    alloc: Global,
    def: TableDef,
    rows: Vec<PlainRow>,
}

/// What a question means: the entries of an index that are compared so with a key.
#[derive(Drop)]
struct Sought {
    place: usize,
    ask: Ask,
    exact: bool,
    key: Vec<u8>,
}

/// The rows of an index by their full keys.
type Entries = BTreeMap<Vec<u8>, Row>;

impl PlainRow {
    /// Whether the index at a place lists the row under a key.
    fn is_listed(&self, place: usize, key: &[u8]) -> bool {
        for full in &self.keys {
            if full.place == place && full.bytes.starts_with(key) {
                return true;
            }
        }
        false
    }
}

impl PlainTable {
    /// A table without rows.
    pub fn empty(alloc: Global, def: TableDef) -> PlainTable {
        PlainTable {
            alloc,
            def,
            rows: Vec::new(alloc),
        }
    }

    /// Puts a row in; true where it replaces one.
    fn put(&mut self, row: &Row) -> Result<bool, WriteError> {
        let new = self.accepted(row)?;
        let replaces = self.take_out(&new.id) > 0;
        self.rows.push(new)?;
        Ok(replaces)
    }

    /// A row with its keys, or the first refusal.
    fn accepted(&self, row: &Row) -> Result<PlainRow, WriteError> {
        let new = self.made(row)?;
        match self.taken(&new) {
            None => Ok(new),
            Some(index) => Err(WriteError::KeyTaken { index }),
        }
    }

    /// A row with its keys, or why it has none.
    fn made(&self, row: &Row) -> Result<PlainRow, WriteError> {
        let id = self.id_key(row)?;
        let keys = self.keys(&id, row)?;
        let row = row.share()?;
        Ok(PlainRow { id, keys, row })
    }

    /// Takes out the row of an `id` key, and gives the number of rows that went.
    fn take_out(&mut self, id: &[u8]) -> usize {
        let before = self.rows.len();
        self.rows.retain(|held| held.id.as_slice() != id);
        before.saturating_sub(self.rows.len())
    }

    /// Takes out the row of another's `id` key, and gives it.
    fn remove(&mut self, row: &Row) -> Result<Row, WriteError> {
        let id = self.id_key(row)?;
        let held = self.held(&id)?;
        self.take_out(&id);
        Ok(held)
    }

    /// The row of an `id` key.
    fn held(&self, id: &[u8]) -> Result<Row, WriteError> {
        for held in &self.rows {
            if held.id.as_slice() == id {
                return Ok(held.row.share()?);
            }
        }
        Err(WriteError::NotFound)
    }

    /// Takes out each row that a question lists, and gives their number.
    fn wipe(&mut self, word: &str, query: &Query) -> Result<u64, WipeError> {
        if word == "delete-prefix" && !named(query).1 {
            return Err(WipeError::Refused(AskError::NoPrefixName));
        }
        match self.sought(query) {
            Ok(sought) => Ok(self.take_listed(sought.place, &sought.key)),
            Err(error) => Err(WipeError::Refused(error)),
        }
    }

    /// Takes out each row that an index lists under a key, and gives their number.
    fn take_listed(&mut self, place: usize, key: &[u8]) -> u64 {
        let before = self.rows.len();
        self.rows.retain(|held| !held.is_listed(place, key));
        before.saturating_sub(self.rows.len()) as u64
    }

    /// The answer to a question.
    fn ask(&self, query: &Query) -> Result<Answer, AskError> {
        let sought = self.sought(query)?;
        Ok(self.listed(&sought)?)
    }

    /// The rows that are meant.
    fn listed(&self, sought: &Sought) -> Result<Answer, AllocError> {
        let entries = self.entries(sought)?;
        let rows = rows_in(self.alloc, entries)?;
        answer_of(self.alloc, sought.ask, ordered(sought.ask, rows))
    }

    /// The `id` key of a row, or why it has none.
    fn id_key(&self, row: &Row) -> Result<Vec<u8>, WriteError> {
        let Some(place) = self.def.find("id") else {
            return Err(WriteError::NoId);
        };
        match self.def.index(place) {
            Some(index) => first_key(self.alloc, told_place(place), index, row),
            None => Err(WriteError::NoId),
        }
    }

    /// The full keys of a row, or the first refusal.
    fn keys(&self, id: &[u8], row: &Row) -> Result<Vec<FullKey>, WriteError> {
        let mut keys = Vec::new(self.alloc);
        for place in 0..self.def.len() {
            self.push_keys(&mut keys, place, id, row)?;
        }
        Ok(keys)
    }

    /// Adds the full keys of a row in the index at a place, if there is one.
    fn push_keys(
        &self,
        keys: &mut Vec<FullKey>,
        place: usize,
        id: &[u8],
        row: &Row,
    ) -> Result<(), WriteError> {
        let Some(index) = self.def.index(place) else {
            return Ok(());
        };
        match keys_of(self.alloc, index.kind(), row) {
            Ok(found) => push_found(keys, place, index, id, &found),
            Err(error) => Err(told(told_place(place), error)),
        }
    }

    /// The first index where another row has one of a row's full keys.
    fn taken(&self, new: &PlainRow) -> Option<u32> {
        for key in &new.keys {
            if self.is_taken(new, key) {
                return Some(told_place(key.place));
            }
        }
        None
    }

    /// Whether another row has one of a row's full keys.
    fn is_taken(&self, new: &PlainRow, key: &FullKey) -> bool {
        for held in &self.rows {
            if held.id != new.id && held.keys.contains(key) {
                return true;
            }
        }
        false
    }

    /// The entries that are meant.
    fn entries(&self, sought: &Sought) -> Result<Entries, AllocError> {
        let mut entries = BTreeMap::new(self.alloc);
        for held in &self.rows {
            add_entries(&mut entries, held, sought)?;
        }
        Ok(entries)
    }

    /// What a question means, or the first rule that it breaks.
    fn sought(&self, query: &Query) -> Result<Sought, AskError> {
        let (name, by_prefix) = named(query);
        if query.ask() == Ask::Longest && !by_prefix {
            return Err(AskError::NoPrefixName);
        }
        let Some(place) = self.def.find(name) else {
            return Err(AskError::UnknownIndex);
        };
        match self.def.index(place) {
            Some(index) => sought_in(self.alloc, place, index, by_prefix, query),
            None => Err(AskError::UnknownIndex),
        }
    }

    /// Adds what the write of a row answers.
    fn tell_write(&mut self, word: &str, row: &Row, out: &mut String) -> Done {
        match word {
            "insert" => tell_put(self.put(row), &self.def, out),
            _ => tell_removed(self.remove(row), &self.def, out),
        }
    }

    /// Adds what a command answers, in the words of a played script.
    fn tell(&mut self, command: &str, out: &mut String) -> Done {
        let (word, rest) = command.split_once(' ').unwrap_or((command, ""));
        match word {
            "insert" | "delete" => self.tell_write(word, &row_of(self.alloc, rest)?, out),
            "old" | "walk" => tell_answer(self.ask(&question_of(self.alloc, rest)?), out),
            _ => tell_wipe(self.wipe(word, &query_of(self.alloc, word, rest)?), out),
        }
    }

    /// What a command answers.
    pub fn told(&mut self, command: &str) -> Result<String, AllocError> {
        let mut out = String::new(self.alloc);
        self.tell(command, &mut out)?;
        Ok(out)
    }
}

/// The name of the index that a question names, and whether by its prefix form.
fn named(query: &Query) -> (&str, bool) {
    let name = query.index().as_str();
    match name.strip_suffix("_prefix") {
        Some(own) => (own, true),
        None => (name, false),
    }
}

/// A place as errors tell it. The greatest number is none that a table tells.
fn told_place(place: usize) -> u32 {
    u32::try_from(place).unwrap_or(u32::MAX)
}

/// Why a row has no keys in the index at a place.
fn told(index: u32, error: KeyError) -> WriteError {
    match error {
        KeyError::Memory => WriteError::Memory,
        KeyError::WrongKind => WriteError::WrongKind { index },
        KeyError::OutOfRange => WriteError::OutOfRange { index },
        KeyError::BadUuid => WriteError::BadUuid { index },
        KeyError::TooMany => WriteError::TooMany { index },
        KeyError::TooLong => WriteError::TooLong { index },
    }
}

/// The first key of a row in an index, or why it has none.
fn first_key(
    alloc: Global,
    place: u32,
    index: &IndexDef,
    row: &Row,
) -> Result<Vec<u8>, WriteError> {
    match keys_of(alloc, index.kind(), row) {
        Ok(keys) => first_of(alloc, &keys),
        Err(error) => Err(told(place, error)),
    }
}

/// The first of some keys.
fn first_of(alloc: Global, keys: &Keys) -> Result<Vec<u8>, WriteError> {
    match keys.get(0) {
        Some(key) => Ok(key.bytes().to_vec(alloc)?),
        None => Err(WriteError::NoId),
    }
}

/// Adds the full keys of some keys in an index, or tells that one is missing.
fn push_found(
    keys: &mut Vec<FullKey>,
    place: usize,
    index: &IndexDef,
    id: &[u8],
    found: &Keys,
) -> Result<(), WriteError> {
    if found.len() == 0 && !index.allow_missing() {
        return Err(WriteError::Missing {
            index: told_place(place),
        });
    }
    // In an index that isn't unique the `id` key stands behind the key.
    let rest: &[u8] = if index.unique() { &[] } else { id };
    Ok(push_each(keys, place, found, rest)?)
}

/// Adds keys with these bytes behind each.
fn push_each(keys: &mut Vec<FullKey>, place: usize, found: &Keys, rest: &[u8]) -> Done {
    for key in found.iter() {
        push_full(keys, place, key.bytes(), rest)?;
    }
    Ok(())
}

/// Adds a key with these bytes behind it.
fn push_full<'x>(keys: &mut Vec<FullKey>, place: usize, key: &'x [u8], rest: &'x [u8]) -> Done {
    let alloc = *keys.allocator();
    let bytes = [key, rest].concat(alloc)?;
    keys.push(FullKey { place, bytes })?;
    Ok(())
}

/// Adds a row under each of its keys that is meant.
fn add_entries(entries: &mut Entries, held: &PlainRow, sought: &Sought) -> Done {
    for key in &held.keys {
        if sought.is_meant(key) {
            add_entry(entries, key.bytes.clone()?, &held.row)?;
        }
    }
    Ok(())
}

/// Adds a row under a key.
fn add_entry(entries: &mut Entries, key: Vec<u8>, row: &Row) -> Done {
    entries.insert(key, row.share()?)?;
    Ok(())
}

/// The rows of entries by rising key.
fn rows_in(alloc: Global, entries: Entries) -> Result<Vec<Row>, AllocError> {
    let mut rows = Vec::new(alloc);
    for (_, row) in entries {
        rows.push(row)?;
    }
    Ok(rows)
}

/// What a question of an index means, or the first rule of the index that it breaks.
fn sought_in(
    alloc: Global,
    place: usize,
    index: &IndexDef,
    by_prefix: bool,
    query: &Query,
) -> Result<Sought, AskError> {
    let ask = query.ask();
    keeps_rules(ask, index, query)?;
    let exact = index.unique() && !by_prefix && query.args().len() > 0;
    let key = key_asked(alloc, index, by_prefix, query)?;
    Ok(Sought {
        place,
        ask,
        exact,
        key,
    })
}

/// The first rule that a question breaks beside those of its argument.
fn keeps_rules(ask: Ask, index: &IndexDef, query: &Query) -> Result<(), AskError> {
    if ask == Ask::Longest && !index.unique() {
        return Err(AskError::NotUnique);
    }
    let wants_key = matches!(ask, Ask::Longest | Ask::ReverseLower);
    if wants_key && query.args().len() == 0 {
        return Err(AskError::ArgCount);
    }
    Ok(())
}

/// The key of a question's arguments, empty where there is none.
fn key_asked(
    alloc: Global,
    index: &IndexDef,
    by_prefix: bool,
    query: &Query,
) -> Result<Vec<u8>, AskError> {
    let args = query.args();
    if args.len() == 0 {
        Ok(Vec::new(alloc))
    } else if by_prefix {
        bytes_of(alloc, prefix_key(alloc, index.kind(), args))
    } else {
        bytes_of(alloc, arg_key(alloc, index.kind(), args))
    }
}

/// The bytes of an argument's key, or why there is none.
fn bytes_of(alloc: Global, key: Result<Key, ArgError>) -> Result<Vec<u8>, AskError> {
    match key {
        Ok(key) => Ok(key.bytes().to_vec(alloc)?),
        Err(error) => Err(refused(error)),
    }
}

/// Why arguments make no key.
fn refused(error: ArgError) -> AskError {
    match error {
        ArgError::Memory => AskError::Memory,
        ArgError::ArgCount => AskError::ArgCount,
        ArgError::ArgKind => AskError::ArgKind,
        ArgError::OutOfRange => AskError::OutOfRange,
        ArgError::BadUuid => AskError::BadUuid,
        ArgError::TooLong => AskError::TooLong,
        ArgError::NoPrefixForm => AskError::NoPrefixForm,
    }
}

impl Sought {
    /// Whether the entry of a full key is meant.
    fn is_meant(&self, full: &FullKey) -> bool {
        full.place == self.place && self.is_found(full.bytes.as_slice())
    }

    /// Whether a full key is compared so with the key.
    fn is_found(&self, full: &[u8]) -> bool {
        let key = self.key.as_slice();
        match self.ask {
            Ask::First | Ask::Last if self.exact => full == key,
            Ask::Lower => full >= key,
            Ask::ReverseLower => full <= key,
            Ask::Longest => key.starts_with(full),
            _ => full.starts_with(key),
        }
    }
}

/// The rows as a question gives them, of those that it means by rising key.
fn ordered(ask: Ask, mut rows: Vec<Row>) -> Vec<Row> {
    if matches!(
        ask,
        Ask::Last | Ask::GetReverse | Ask::ReverseLower | Ask::Longest
    ) {
        rows.reverse();
    }
    if matches!(ask, Ask::First | Ask::Last | Ask::Longest) {
        rows.truncate(1);
    }
    rows
}

/// Rows as an answer: one or none, or all of them.
fn answer_of(alloc: Global, ask: Ask, mut rows: Vec<Row>) -> Result<Answer, AllocError> {
    match ask {
        Ask::First | Ask::Last | Ask::Longest => Ok(Answer::One(rows.pop())),
        _ => Ok(Answer::Many(listed(alloc, rows)?)),
    }
}

/// Rows as a list.
fn listed(alloc: Global, rows: Vec<Row>) -> Result<Rows, AllocError> {
    let mut list = Rows::new(alloc);
    for row in rows {
        list.push(row)?;
    }
    Ok(list)
}
