//! Sessions that were worked by hand from the formats of scripts and outputs.
use super::files::{File, Part};
use super::{rows, tables, users, watches};

/// A schema, the files of its clients, and the output of their run.
#[derive(Clone, Copy)]
pub(crate) struct Session {
    pub(crate) schema: &'static str,
    pub(crate) clients: &'static [File],
    pub(crate) output: &'static [Part],
}

/// A worked session, by what it shows.
#[derive(Clone, Copy)]
pub(crate) enum Worked {
    /// A client that writes a row and reads it back.
    WriteAndRead,
    /// The second insert of a row in a transaction replaces the first one's.
    InsertedTwice,
    /// A client without a line.
    NoLines,
    /// A client whose file is empty.
    Empty,
    /// A row is committed, read, replaced, and read again.
    OwnCommit,
    /// A transaction sees its own writes, in the order of their keys; a snapshot keeps its rows.
    OrderByKey,
    /// A text ends where it ends, unless the index is asked by its name with `_prefix`.
    EndByte,
    /// Numbers of two bytes, from a bound on and down to one.
    Bounds,
    /// A full key that another row has.
    TakenKey,
    /// A key that is a UUID, and prefixes of it.
    Uuid,
    /// A row can be deleted once, and a watch that was refused isn't there.
    Repeated,
    /// Rows are written, committed, and asked for in each way.
    EachQuestion,
    /// Each rule that a line may break, but those of watches.
    EachRule,
    /// A snapshot keeps the writes so far, and has no watch; an abort leaves nothing.
    UncommittedSnapshot,
    /// The row of the longest key that is a prefix.
    LongestPrefix,
    /// Wipes tell how many rows they took out; deferred texts are handed out once, the last first.
    Wipes,
    /// A name is taken for the whole session, and the snapshot that has it stays.
    Names,
    /// Lines without a command are counted; the transaction at the end stays open.
    SilentLines,
    /// A commit tells its changes of the one tracked table by their keys, before its texts: no row that
    /// an equal one has replaced, none that came and went, and none of another table.
    TrackedKeys,
    /// A watch of a key that isn't there fires when the key is put, and one of another key stays quiet.
    MissingKey,
    /// The same where the new key splits a prefix.
    Split,
    /// A delete that merges a node fires the watch of what begins with its path.
    Merge,
    /// Another table's commit fires nothing.
    OtherTable,
    /// A watch fires where the node beside its key was copied, though its answer is as before.
    Neighbours,
    /// What is aborted fires nothing.
    Abort,
    /// A set has each cell once, and a wait tells its first member that has fired, or what cancels it.
    SetWaits,
    /// Each rule of the lines of watches, and the order in which they are told.
    WatchRules,
    /// Keys in lower case, of two parts, of each member of a map, and of a test.
    Catalogue,
    /// A commit tells the changes of the one table that is tracked, by their keys, before its texts: no
    /// row that an equal one has replaced, none that came and went, and none of the other table.
    Tracked,
    /// Two clients that write a row each, one after the other.
    BothWrite,
    /// The first waits until the second commits a row.
    Parked,
}

/// The sessions of one client.
static OF_ONE: [Worked; 29] = [
    Worked::WriteAndRead,
    Worked::InsertedTwice,
    Worked::NoLines,
    Worked::Empty,
    Worked::OwnCommit,
    Worked::OrderByKey,
    Worked::EndByte,
    Worked::Bounds,
    Worked::TakenKey,
    Worked::Uuid,
    Worked::Repeated,
    Worked::EachQuestion,
    Worked::EachRule,
    Worked::UncommittedSnapshot,
    Worked::LongestPrefix,
    Worked::Wipes,
    Worked::Names,
    Worked::SilentLines,
    Worked::TrackedKeys,
    Worked::MissingKey,
    Worked::Split,
    Worked::Merge,
    Worked::OtherTable,
    Worked::Neighbours,
    Worked::Abort,
    Worked::SetWaits,
    Worked::WatchRules,
    Worked::Catalogue,
    Worked::Tracked,
];

/// The sessions of one client.
pub(crate) fn sessions_of_one() -> &'static [Worked] {
    &OF_ONE
}

impl Worked {
    /// Its texts.
    pub(crate) fn session(self) -> &'static Session {
        match self {
            Worked::WriteAndRead => &rows::WRITE_AND_READ,
            Worked::InsertedTwice => &rows::INSERTED_TWICE,
            Worked::NoLines => &rows::NO_LINES,
            Worked::Empty => &rows::EMPTY,
            Worked::OwnCommit => &users::OWN_COMMIT,
            Worked::OrderByKey => &users::ORDER_BY_KEY,
            Worked::EndByte => &users::END_BYTE,
            Worked::Bounds => &users::BOUNDS,
            Worked::TakenKey => &users::TAKEN_KEY,
            Worked::Uuid => &users::UUID,
            Worked::Repeated => &users::REPEATED,
            Worked::EachQuestion => &users::EACH_QUESTION,
            Worked::EachRule => &users::EACH_RULE,
            Worked::UncommittedSnapshot => &users::UNCOMMITTED_SNAPSHOT,
            Worked::LongestPrefix => &users::LONGEST_PREFIX,
            Worked::Wipes => &users::WIPES,
            Worked::Names => &users::NAMES,
            Worked::SilentLines => &users::SILENT_LINES,
            Worked::TrackedKeys => &users::TRACKED_KEYS,
            Worked::MissingKey => &watches::MISSING_KEY,
            Worked::Split => &watches::SPLIT,
            Worked::Merge => &watches::MERGE,
            Worked::OtherTable => &watches::OTHER_TABLE,
            Worked::Neighbours => &watches::NEIGHBOURS,
            Worked::Abort => &watches::ABORT,
            Worked::SetWaits => &watches::SET_WAITS,
            Worked::WatchRules => &watches::WATCH_RULES,
            Worked::Catalogue => &tables::CATALOGUE,
            Worked::Tracked => &tables::TRACKED,
            Worked::BothWrite => &rows::BOTH_WRITE,
            Worked::Parked => &rows::PARKED,
        }
    }
}
