//! What is known of every state, as laws of the definitions. Each function does nothing: its
//! contract is the law.
ghost use Rattle.mdb_schema.specs.Laws.{StepKeeps, HistoryKeeps, EachKeyIsAnEntry, EachEntryIsAKey};
ghost use Rattle.mdb_schema.specs.Laws.{EntriesRise, WipeLeaves, WipeOfNothing};
ghost use Rattle.mdb_schema.specs.Net.{NetLeadsToNew, NetOfUndone, NoNetWhereSame};
ghost use Rattle.mdb_schema.specs.Net.{DifferWhereNotSame, NetsAreJustWhatDiffers, NetsRise};
ghost use Rattle.mdb_schema.specs.Net.{ChangesLeadToNew, ChangesOfUndone, NoChangeWhereSame};
ghost use Rattle.mdb_schema.specs.Net.{NoneTracked, VersionOneTracksNone};

/// A write that is accepted keeps a lawful state lawful, and so the state after any commits is
/// lawful.
pub fn writes_keep_states_lawful()
    ensures step { StepKeeps }
    ensures history { HistoryKeeps }
{}

/// In lawful rows the entries of an index are the full keys of the rows, each with its row, and no
/// two entries have one key.
pub fn entries_are_the_full_keys()
    ensures keys { EachKeyIsAnEntry }
    ensures entries { EachEntryIsAKey }
    ensures rising { EntriesRise }
{}

/// A wipe leaves in its table the rows that it doesn't list, and the other tables as they are. One
/// that lists no row changes nothing.
pub fn wipes_take_out_what_they_list()
    ensures leaves { WipeLeaves }
    ensures nothing { WipeOfNothing }
{}

/// The net of two lists of rows is just what became of the row of each `id` key where the row before
/// and the row after aren't the same, in the order of the keys, each once. Made on the first list, it
/// gives the second. There is none exactly where both are the same, and so writes that undo each other
/// leave none.
pub fn nets_are_what_differs()
    ensures differ { DifferWhereNotSame }
    ensures just { NetsAreJustWhatDiffers }
    ensures rise { NetsRise }
    ensures leads { NetLeadsToNew }
    ensures empty { NoNetWhereSame }
    ensures undone { NetOfUndone }
{}

/// The changes from a state to another, made on the first, give the rows of the second in each tracked
/// table, and leave the other tables as they are. There is none exactly where the tracked tables have
/// the same rows, and so writes that undo each other there leave none. Where no table is tracked there
/// is none at all.
pub fn changes_are_what_differs_where_tracked()
    ensures leads { ChangesLeadToNew }
    ensures empty { NoChangeWhereSame }
    ensures undone { ChangesOfUndone }
    ensures none { NoneTracked }
{}

/// A schema that is read from a document of version 1 has no tracked table, so that no change is told of
/// its states.
pub fn version_one_tracks_none()
    ensures { VersionOneTracksNone }
{}
