//! The beginning of a wipe: the walk over the rows that it lists, and the cut of their index.
ghost use Rattle.std.specs.Prelude.{◌≡◌, ◌⊎◌, ◌+◌, ◌*◌, ◌<◌, ◌≤◌, ◌^◌, true, false, IfErr, IfOk};
ghost use Rattle.std.specs.Prelude.{MatchResult, Ok, OnOk, Some, option_map};
ghost use Rattle.std.specs.Prelude.{Contains, [], ◌∷◌, ◌++◌, if◌then◌else◌, length, map, slice_get};
ghost use Rattle.mdb_datum.specs.Row.{Fields};
ghost use Rattle.mdb_schema.specs.Wipe.{once};
ghost use Rattle.mdb_datum.specs.Bytes.{Bytes};
ghost use Rattle.mdb_schema.specs.Write.{id_of, is_among};
ghost use Rattle.radix_txn.specs.Txn.{txn_pairs};
ghost use Rattle.table_index.specs.Table.{AreLeft, AreSpent};
ghost use Rattle.table_index.specs.declared.wipe_error.WipeError.TheVariants.{IdsSpent, Memory};
ghost use Rattle.table_index.specs.inner.Drawn.{AreReady, HaveDrawn};
ghost use Rattle.table_index.specs.inner.IndexTrees.{AreSound, AreTrees, nodes_of};
ghost use Rattle.table_index.specs.inner.Wipes.{GivesUp, IsCut, IsStored, cut_at, listed_from};
ghost use Rattle.table_index.specs.inner.Wipes.{rows_under};
ghost use Rattle.table_index.specs.inner.Writes.{TreesWrote, IsCutAt};

use crate::id_key::IdKey;
use crate::ids_left::has_ids;
use crate::stored::stored_id;
use crate::tree_edit::delete_prefix;
use crate::wipe_error::WipeError;
use mdb_datum::Row;
use mdb_schema::TableDef;
use radix_iter::{Walk, ascend, first};
use radix_node::{Ids, Tree};
use radix_txn::TreeTxn;
use std::alloc::{AllocError, Global};
use watch_word::Front;

/// A walk over the rows that the index at a place lists under a key, in the tree that stands as it
/// was; the keys that begin with the key are then out of the present one. Where it lists no row
/// nothing changes.
pub(crate) fn cut_listed<'t>(
    alloc: Global,
    def: &TableDef,
    txns: &mut [TreeTxn],
    front: &Front,
    ids: &mut Ids,
    place: usize,
    tree: &'t Tree,
    key: &[u8],
) -> Result<Walk<'t>, WipeError>
    requires place { place < length txns.old }
    requires short { length key.now ≤ 2048 }
    requires ready { AreReady front.now ids.old txns.old }
    requires held { AreTrees def.now (nodes_of txns.old) }
    requires stands { rows_under key.now tree.now
        ≡ listed_from key.now (slice_get txns.old place) }
    ensures answers { let rows = length
        (once def.now (listed_from key.now (slice_get txns.old place))) in
        MatchResult result
        (λ listed. IsCut def.now place key.now listed ids.old.next txns.old txns.new)
        (λ e. GivesUp ids.old.next rows e txns.old txns.new) }
    ensures drawn { let rows = length
        (once def.now (listed_from key.now (slice_get txns.old place))) in
        HaveDrawn front.now (4096 * rows) ids.old ids.new txns.old txns.new }
    ensures refused { IfErr result (λ e. (e ≡ Memory) ⊎ (ids.new ≡ ids.old)) }
    ensures written { OnOk result
        (TreesWrote (IsCutAt place key.now txns.old) txns.old txns.new) }
{
    // The definition is lawful by its type.
    let _ = def.len();
    let listed = checked_walk(alloc, def, ids, tree, key)?;
    if !lists_any(tree, key) {
        return Ok(listed);
    }
    cut_at(txns, front, ids, place, key)?;
    Ok(listed)
}

/// A walk over the rows that a tree lists under a key, if there are ids for them.
fn checked_walk<'t>(
    alloc: Global,
    def: &TableDef,
    ids: &Ids,
    tree: &'t Tree,
    key: &[u8],
) -> Result<Walk<'t>, WipeError>
    requires { (r : Fields) → Contains (rows_under key.now tree.now) r → IsStored def.now r }
    ensures { let rows = length (once def.now (rows_under key.now tree.now)) in
        MatchResult result
        (λ w. (w ≡ rows_under key.now tree.now) × AreLeft ids.now.next rows)
        (λ e. (e ≡ Memory) ⊎ (AreSpent ids.now.next rows × (e ≡ IdsSpent))) }
{
    if are_enough(alloc, def, ids, tree, key)? {
        Ok(ascend(tree, key)?)
    } else {
        Err(WipeError::IdsSpent)
    }
}

/// The present tree at a place, which later writes don't change.
pub(crate) fn stand_at(txns: &mut [TreeTxn], place: usize) -> Result<Tree, AllocError>
    requires place { place < length txns.old }
    requires sound { AreSound txns.old }
    ensures tree { IfOk result
        (λ t. option_map (λ x. x.tree) (slice_get txns.old place) ≡ Some t) }
    ensures unchanged { txns.new ≡ txns.old }
{
    let txn = &mut txns[place];
    txn.stand()
}

/// Whether a tree has a key that begins with another.
fn lists_any(tree: &Tree, key: &[u8]) -> bool
    ensures some { result ≡ true → 1 ≤ length (rows_under key.now tree.now) }
    ensures none { result ≡ false → rows_under key.now tree.now ≡ [] }
{
    first(tree, key).is_some()
}

/// Takes the keys that begin with a key out of the tree at a place.
fn cut_at(
    txns: &mut [TreeTxn],
    front: &Front,
    ids: &mut Ids,
    place: usize,
    key: &[u8],
) -> Result<(), AllocError>
    requires place { place < length txns.old }
    requires short { length key.now ≤ 2048 }
    requires ready { AreReady front.now ids.old txns.old }
    requires left { ids.old.next + 4096 ≤ 2 ^ 63 }
    ensures pairs { OnOk result
        (map txn_pairs txns.new ≡ cut_at key.now (map txn_pairs txns.old) place) }
    ensures sound { OnOk result (AreSound txns.new) }
    ensures drawn { HaveDrawn front.now 4096 ids.old ids.new txns.old txns.new }
    ensures written { OnOk result
        (TreesWrote (IsCutAt place key.now txns.old) txns.old txns.new) }
{
    let txn = &mut txns[place];
    delete_prefix(txn, front, ids, key)
}

/// Whether there are ids for the rows that a tree lists under a key. Mostly there are enough for as
/// many rows as the tree has keys; else the rows are counted.
fn are_enough(
    alloc: Global,
    def: &TableDef,
    ids: &Ids,
    tree: &Tree,
    key: &[u8],
) -> Result<bool, WipeError>
    requires { (r : Fields) → Contains (rows_under key.now tree.now) r → IsStored def.now r }
    ensures { let rows = length (once def.now (rows_under key.now tree.now)) in
        MatchResult result
        (λ enough. (enough ≡ true → AreLeft ids.now.next rows)
        × (enough ≡ false → AreSpent ids.now.next rows))
        (λ e. e ≡ Memory) }
{
    if has_ids(ids, tree.len()) {
        return Ok(true);
    }
    let rows = count_once(alloc, def, ascend(tree, key)?)?;
    Ok(has_ids(ids, rows as u64))
}

/// How many rows a walk gives, each counted once. It takes memory for their `id` keys, and time in
/// the square of their number.
fn count_once(alloc: Global, def: &TableDef, listed: Walk<'_>) -> Result<usize, WipeError>
    requires { (r : Fields) → Contains listed r → IsStored def.now r }
    ensures { MatchResult result
        (λ count. count ≡ length (once def.now listed.entry)) (λ e. e ≡ Memory) }
{
    let mut seen = Vec::new(alloc);
    count_each(alloc, def, listed, &mut seen)?;
    Ok(seen.len())
}

/// Adds the `id` keys of the rows of a walk to an empty list, each once.
fn count_each(
    alloc: Global,
    def: &TableDef,
    mut listed: Walk<'_>,
    seen: &mut Vec<IdKey>,
) -> Result<(), WipeError>
    requires stored { (r : Fields) → Contains listed r → IsStored def.now r }
    requires none { seen.old.items ≡ [] }
    ensures { MatchResult result
        (λ _. length seen.new.items ≡ length (once def.now listed.entry)) (λ e. e ≡ Memory) }
{
    'rows: while let Some(row) = listed.next()? {
        count_row(alloc, def, &row, seen)?;
    }
    Ok(())
}

/// Adds the `id` key of a row that stands in the table to keys, if it isn't there yet.
fn count_row(
    alloc: Global,
    def: &TableDef,
    row: &Row,
    seen: &mut Vec<IdKey>,
) -> Result<(), WipeError>
    requires { IsStored def.now row.now }
    ensures { MatchResult result
        (λ _. (id : Bytes) × (id_of def.now row.now ≡ Ok id) × (seen.new.items
        ≡ (if is_among seen.old.items id then seen.old.items else seen.old.items ++ id ∷ [])))
        (λ e. e ≡ Memory) }
{
    let id = stored_id(alloc, def, row)?;
    Ok(add_once(seen, id)?)
}

/// Adds a key, if it isn't there yet.
fn add_once(keys: &mut Vec<IdKey>, key: IdKey) -> Result<(), AllocError>
    ensures { OnOk result (keys.new.items
        ≡ (if is_among keys.old.items key then keys.old.items else keys.old.items ++ key ∷ [])) }
{
    if !is_among(keys, &key) {
        keys.push(key)?;
    }
    Ok(())
}

/// Whether a key is one of these.
fn is_among(keys: &[IdKey], key: &IdKey) -> bool
    ensures { result ≡ is_among keys.now key.now }
{
    for own in keys {
        if key.bytes() == own.bytes() {
            return true;
        }
    }
    false
}
