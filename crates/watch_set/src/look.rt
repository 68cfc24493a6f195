//! Looks at the members of a set.
ghost use Rattle.std.specs.Prelude.{◌≡◌, [], IfOk, IfSome, None, OnOk, option_copied};
ghost use Rattle.mem_txn.specs.Checked.{AnswersCheck, HasReadOnce, IsHeldBy, LooksOnce};
ghost use Rattle.mem_txn.specs.Database.{Caller, IsOf};
ghost use Rattle.watch_set.specs.Checks.{Finds, KeepsHeld, OnlyLooks};
ghost use Rattle.watch_set.specs.Members.{AreHeldBy, watches_of};
ghost use Rattle.watch_set.specs.inner.Reads.{IsRead};

use crate::member::Member;
use crate::woken::Woken;
use mem_txn::pass_laws::held_watches_stay;
use mem_txn::{Db, Held, Look, Pass, ReadTxn};
use std::alloc::AllocError;
use std::sync::Wait;

/// The state after all commits, in which the members are checked.
pub(crate) fn read<R: Wait>(rt: &R, db: &Db, pass: &mut Pass) -> Result<ReadTxn, AllocError>
    requires own { IsOf db.now pass.old }
    ensures read { IfOk result (λ r. IsRead pass.new r) }
    ensures once { OnOk result (HasReadOnce pass.old pass.new) }
    ensures keeps { KeepsHeld pass.old pass.new }
    ensures looks { OnlyLooks pass.old pass.new }
{
    let read = db.read(rt, pass);
    held_watches_stay(pass);
    read
}

/// A check of one watch in the state that was read; the state is read again while it lacks a commit
/// that has fired the watch's cell.
fn check<R: Wait>(
    rt: &R,
    db: &Db,
    pass: &mut Pass,
    state: &mut ReadTxn,
    held: &Held,
) -> Result<Look, AllocError>
    requires own { IsOf db.now pass.old }
    requires read { IsRead pass.old state.old }
    requires held { IsHeldBy pass.old held.now }
    ensures look { (first : Caller) → LooksOnce first pass.old
        → IfOk result (λ l. AnswersCheck first pass.new held.now l) }
    ensures read { OnOk result (IsRead pass.new state.new) }
    ensures keeps { KeepsHeld pass.old pass.new }
    ensures looks { OnlyLooks pass.old pass.new }
{
    for _ in rt.forever() {
        if let Some(look) = state.check(pass, held) {
            return Ok(look);
        }
        *state = read(rt, db, pass)?;
    }
    unreachable!()
}

/// Checks these members in order, up to the first that isn't quiet.
pub(crate) fn look_at<R: Wait>(
    rt: &R,
    db: &Db,
    pass: &mut Pass,
    state: &mut ReadTxn,
    members: &[Member],
) -> Result<Option<Woken>, AllocError>
    requires own { IsOf db.now pass.old }
    requires read { IsRead pass.old state.old }
    requires held { AreHeldBy pass.old (watches_of members.now) }
    ensures look { (first : Caller) → LooksOnce first pass.old
        → IfOk result (λ w. Finds first pass.old pass.new members.now None w) }
    ensures read { OnOk result (IsRead pass.new state.new) }
    ensures once { (first : Caller) → LooksOnce first pass.old
        → OnOk result (LooksOnce first pass.new) }
    ensures keeps { KeepsHeld pass.old pass.new }
    ensures looks { OnlyLooks pass.old pass.new }
{
    for (place, member) in members.iter().enumerate() {
        match check(rt, db, pass, state, &member.held)? {
            Look::Quiet { .. } => {}
            Look::Fired { at } => return Ok(Some(Woken::Fired { place, at })),
        }
    }
    Ok(None)
}

/// Checks what cancels a wait, if anything.
pub(crate) fn look_until<R: Wait>(
    rt: &R,
    db: &Db,
    pass: &mut Pass,
    state: &mut ReadTxn,
    until: Option<&Held>,
) -> Result<Option<Woken>, AllocError>
    requires own { IsOf db.now pass.old }
    requires read { IsRead pass.old state.old }
    requires until { IfSome until (λ h. IsHeldBy pass.old h.now) }
    ensures look { (first : Caller) → LooksOnce first pass.old → IfOk result
        (λ w. Finds first pass.old pass.new [] (option_copied until.entry) w) }
    ensures keeps { KeepsHeld pass.old pass.new }
    ensures looks { OnlyLooks pass.old pass.new }
{
    let Some(held) = until else {
        return Ok(None);
    };
    match check(rt, db, pass, state, held)? {
        Look::Quiet { .. } => Ok(None),
        Look::Fired { at } => Ok(Some(Woken::Stopped { at })),
    }
}
