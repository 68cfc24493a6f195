//! The state of a session between two lines, and a line's turn.
ghost use Rattle.std.specs.Prelude.{◌≡◌, IfOk, None, OnErr, OnOk, Some, cond, false, is_some};
ghost use Rattle.std.specs.Prelude.{option_copied, option_map};
ghost use Rattle.std.specs.BTreeMap.{get_by_text};
ghost use Rattle.std.specs.Str.{bytes_eq};
ghost use Rattle.mdb_datum.specs.Bytes.{Bytes};
ghost use Rattle.mem_txn.specs.Database.{IsOf};
ghost use Rattle.client_session.specs.Answered.{IsLater};
ghost use Rattle.client_script.specs.declared.command.AskCommand.TheVariants as ask_line;
ghost use Rattle.client_script.specs.declared.command.Command.TheVariants as commands;
ghost use Rattle.client_script.specs.declared.command.NameCommand.TheVariants as name_line;
ghost use Rattle.client_script.specs.declared.command.WatchesCommand.TheVariants as watches_line;
ghost use Rattle.client_script.specs.Client.{at_start};
ghost use Rattle.client_session.specs.Waiting.{awaited_of};
ghost use Rattle.client_session.specs.inner.Awaited.{Awaits};
ghost use Rattle.client_session.specs.inner.StateView.{AnswersOnce, Follows, LooksAndReplies};
ghost use Rattle.client_session.specs.inner.StateView.{RepliesTo, StepsTo};
ghost use Rattle.client_session.specs.inner.OpenView.{caller_of, is_writing, IsOpen, Stands};
ghost use Rattle.client_session.specs.inner.SnapshotView.{seen_in};
ghost use Rattle.client_session.specs.inner.ReplyOf.{reply_of};
ghost use Rattle.client_session.specs.inner.WatchingView.{Holds, wait_for};

use crate::any_snapshot::AnySnapshot;
use crate::named::Named;
use crate::open::Open;
use crate::refusal::refused;
use crate::reply::Reply;
use crate::waits_for::WaitsFor;
use crate::watching::Watching;
use client_script::{AskCommand, Command, NameCommand, Rule, TransactionCommand, WatchesCommand};
use mdb_datum::Text;
use mdb_schema::Query;
use mem_txn::{Db, Pass};
use std::alloc::{AllocError, Global};
use std::sync::Wait;

/// The state of a session: what is open, the named snapshots, and what is watched.
pub(crate) struct SessionState {
    pub(crate) open: Open,
    pub(crate) snapshots: Named<AnySnapshot>,
    pub(crate) watching: Watching,
}

impl SessionState {
    /// The state at the start of a session: nothing is open, kept or watched. It takes no memory.
    pub(crate) fn new(alloc: Global, pass: Pass) -> SessionState
        ensures start { Follows result at_start }
        ensures caller { caller_of result.open ≡ pass }
        ensures closed { is_writing result.open ≡ false }
    {
        SessionState {
            open: Open::Nothing(pass),
            snapshots: Named::new(alloc),
            watching: Watching::new(alloc),
        }
    }

    /// Carries out a command, and gives the reply. After `AllocError` no commit was made, and a
    /// write transaction may still be open.
    pub(crate) fn turn<R: Wait>(
        self,
        rt: &R,
        alloc: Global,
        db: &Db,
        command: &Command,
    ) -> (SessionState, Result<Reply, AllocError>)
        requires own { IsOf db.now (caller_of self.open) }
        requires stands { Stands self.open }
        requires holds { Holds (caller_of self.open) self.watching }
        ensures turn { IfOk result.1 (λ r. LooksAndReplies command.now self result.0
            (reply_of (caller_of self.open).schema r)) }
        ensures caller { IsLater (caller_of self.open) (caller_of result.0.open) }
        ensures unmade { OnErr result.1
            ((caller_of result.0.open).own ≡ (caller_of self.open).own) }
    {
        match command {
            Command::Transaction(command) => self.transaction(rt, db, command),
            Command::Write(command) => {
                let mut state = self;
                let told = state.open.write_rows(db.schema(), command);
                (state, told)
            }
            Command::Defer { text } => {
                let mut state = self;
                let told = state.open.defer(alloc, text);
                (state, told)
            }
            Command::Ask(command) => {
                let mut state = self;
                let told = state.ask(command);
                (state, told)
            }
            Command::Name(command) => {
                let mut state = self;
                let told = state.name(alloc, command);
                (state, told)
            }
            Command::Size { set } => {
                let reply = self.watching.size(set);
                (self, Ok(reply))
            }
            Command::Watches(command) => {
                let mut state = self;
                let told = state.watches(rt, alloc, db, command);
                (state, told)
            }
        }
    }

    /// The same, but `write` makes one try for the writer's turn, and a wait looks once at each
    /// watch. It gives no reply where the turn is taken, or all are quiet.
    pub(crate) fn step<R: Wait>(
        self,
        rt: &R,
        alloc: Global,
        db: &Db,
        command: &Command,
    ) -> (SessionState, Result<Option<Reply>, AllocError>)
        requires own { IsOf db.now (caller_of self.open) }
        requires stands { Stands self.open }
        requires holds { Holds (caller_of self.open) self.watching }
        ensures turn { IfOk result.1 (λ r. StepsTo db.now.callers command.now self result.0
            (option_map (reply_of (caller_of self.open).schema) r)) }
        ensures caller { IsLater (caller_of self.open) (caller_of result.0.open) }
        ensures unmade { OnErr result.1
            ((caller_of result.0.open).own ≡ (caller_of self.open).own) }
    {
        match command {
            Command::Transaction(TransactionCommand::Write) => {
                let SessionState {
                    open,
                    snapshots,
                    watching,
                } = self;
                let (open, told) = open.try_write(rt, db);
                let state = SessionState {
                    open,
                    snapshots,
                    watching,
                };
                (state, told)
            }
            Command::Watches(WatchesCommand::Wait { set }) => {
                let mut state = self;
                let told = state.wait_once(rt, alloc, db, set, None);
                (state, told)
            }
            Command::Watches(WatchesCommand::WaitUntil { set, until }) => {
                let mut state = self;
                let told = state.wait_once(rt, alloc, db, set, Some(until));
                (state, told)
            }
            command => {
                let (state, told) = self.turn(rt, alloc, db, command);
                (state, told.map(Some))
            }
        }
    }

    /// What a command waits for: nothing, where it is no wait, or breaks a rule. It takes no memory.
    pub(crate) fn awaited(&self, command: &Command) -> Option<WaitsFor<'_>>
        ensures { Awaits self.now command.now (option_map awaited_of result) }
    {
        if self.open.is_writing() {
            return None;
        }
        match command {
            Command::Watches(line) => self.awaited_by(line),
            _ => None,
        }
    }

    /// What a line of watches waits for, while no write transaction is open.
    fn awaited_by(&self, line: &WatchesCommand) -> Option<WaitsFor<'_>>
        requires free { is_writing self.now.open ≡ false }
        ensures { Awaits self.now (commands.Watches line.now) (option_map awaited_of result) }
    {
        match line {
            WatchesCommand::Wait { set } => self.watching.awaited(set, None),
            WatchesCommand::WaitUntil { set, until } => self.watching.awaited(set, Some(until)),
            _ => None,
        }
    }

    /// Carries out a command that begins or ends a transaction.
    fn transaction<R: Wait>(
        self,
        rt: &R,
        db: &Db,
        command: &TransactionCommand,
    ) -> (SessionState, Result<Reply, AllocError>)
        requires own { IsOf db.now (caller_of self.open) }
        requires stands { Stands self.open }
        ensures turn { IfOk result.1 (λ r. LooksAndReplies (commands.Transaction command.now) self
            result.0 (reply_of (caller_of self.open).schema r)) }
        ensures caller { IsLater (caller_of self.open) (caller_of result.0.open) }
        ensures unmade { OnErr result.1
            ((caller_of result.0.open).own ≡ (caller_of self.open).own) }
    {
        let SessionState {
            open,
            snapshots,
            watching,
        } = self;
        let (open, told) = open.turn(rt, db, command);
        let state = SessionState {
            open,
            snapshots,
            watching,
        };
        (state, told)
    }

    /// Carries out a command that asks for rows.
    fn ask(&mut self, command: &AskCommand) -> Result<Reply, AllocError>
        requires stands { Stands self.old.open }
        ensures turn { IfOk result (λ r. RepliesTo (commands.Ask command.now) self.old self.new
            (reply_of (caller_of self.old.open).schema r)) }
        ensures caller { caller_of self.new.open ≡ caller_of self.old.open }
    {
        match command {
            AskCommand::Question { query } => self.open.ask(query),
            AskCommand::InSnapshot { name, query } => self.ask_snapshot(name, query),
        }
    }

    /// Carries out a command that keeps a snapshot or a watch.
    fn name(&mut self, alloc: Global, command: &NameCommand) -> Result<Reply, AllocError>
        requires stands { Stands self.old.open }
        ensures turn { IfOk result (λ r. RepliesTo (commands.Name command.now) self.old self.new
            (reply_of (caller_of self.old.open).schema r)) }
        ensures caller { caller_of self.new.open ≡ caller_of self.old.open }
    {
        match command {
            NameCommand::Snapshot { name } => self.keep(alloc, name),
            NameCommand::Watch { name, query } => self.watch(alloc, name, query),
            NameCommand::WatchIn {
                name,
                snapshot,
                query,
            } => self.watch_in(alloc, name, snapshot, query),
        }
    }

    /// Carries out a command that looks at watches, or adds them to sets.
    fn watches<R: Wait>(
        &mut self,
        rt: &R,
        alloc: Global,
        db: &Db,
        command: &WatchesCommand,
    ) -> Result<Reply, AllocError>
        requires own { IsOf db.now (caller_of self.old.open) }
        requires stands { Stands self.old.open }
        requires holds { Holds (caller_of self.old.open) self.old.watching }
        ensures turn { IfOk result (λ r. LooksAndReplies (commands.Watches command.now) self.old
            self.new (reply_of (caller_of self.old.open).schema r)) }
        ensures caller { IsLater (caller_of self.old.open) (caller_of self.new.open) }
        ensures unmade { (caller_of self.new.open).own ≡ (caller_of self.old.open).own }
    {
        match command {
            WatchesCommand::Check { name } => self.check(rt, db, name),
            WatchesCommand::Add { set, name } => self.add(alloc, set, name),
            WatchesCommand::AddLimit {
                set,
                limit,
                name,
                other,
            } => self.add_limit(alloc, set, *limit, name, other),
            WatchesCommand::Wait { set } => self.wait(rt, alloc, db, set, None),
            WatchesCommand::WaitUntil { set, until } => {
                self.wait(rt, alloc, db, set, Some(until))
            }
        }
    }

    /// Asks the open transaction, and keeps the answer's watch.
    fn watch(&mut self, alloc: Global, name: &Text, query: &Query) -> Result<Reply, AllocError>
        requires stands { Stands self.old.open }
        ensures turn { IfOk result (λ r. RepliesTo
            (commands.Name (name_line.Watch name.now query.now)) self.old self.new
            (reply_of (caller_of self.old.open).schema r)) }
        ensures caller { caller_of self.new.open ≡ caller_of self.old.open }
    {
        match &self.open {
            Open::Nothing(_) => Ok(Reply::Refused(Rule::NoTransaction)),
            Open::Reading(_, txn) => self.watching.ask(alloc, name, Some(txn), query),
            Open::Writing(_) => self.watching.ask(alloc, name, None, query),
        }
    }

    /// Asks a snapshot, and keeps the answer's watch.
    fn watch_in(
        &mut self,
        alloc: Global,
        name: &Text,
        snapshot: &Text,
        query: &Query,
    ) -> Result<Reply, AllocError>
        requires stands { Stands self.old.open }
        ensures turn { IfOk result (λ r. RepliesTo
            (commands.Name (name_line.WatchIn name.now snapshot.now query.now)) self.old self.new
            (reply_of (caller_of self.old.open).schema r)) }
        ensures caller { caller_of self.new.open ≡ caller_of self.old.open }
    {
        match self.snapshots.get(snapshot) {
            None => Ok(Reply::Refused(Rule::UnknownName)),
            Some(AnySnapshot::Committed(txn)) => self.watching.ask(alloc, name, Some(txn), query),
            Some(AnySnapshot::Uncommitted(_)) => self.watching.ask(alloc, name, None, query),
        }
    }

    /// Adds a watch to a set.
    fn add(&mut self, alloc: Global, set: &Text, name: &Text) -> Result<Reply, AllocError>
        requires stands { Stands self.old.open }
        ensures turn { IfOk result (λ r. LooksAndReplies
            (commands.Watches (watches_line.Add set.now name.now)) self.old self.new
            (reply_of (caller_of self.old.open).schema r)) }
        ensures caller { IsLater (caller_of self.old.open) (caller_of self.new.open) }
        ensures unmade { (caller_of self.new.open).own ≡ (caller_of self.old.open).own }
    {
        self.open.ids_tell_cells();
        self.watching.add(alloc, set, name)
    }

    /// Adds a watch to a set that has fewer members than the limit, and else the other one.
    fn add_limit(
        &mut self,
        alloc: Global,
        set: &Text,
        limit: u32,
        name: &Text,
        other: &Text,
    ) -> Result<Reply, AllocError>
        requires stands { Stands self.old.open }
        ensures turn { IfOk result (λ r. LooksAndReplies
            (commands.Watches (watches_line.AddLimit set.now limit name.now other.now)) self.old self.new
            (reply_of (caller_of self.old.open).schema r)) }
        ensures caller { IsLater (caller_of self.old.open) (caller_of self.new.open) }
        ensures unmade { (caller_of self.new.open).own ≡ (caller_of self.old.open).own }
    {
        self.open.ids_tell_cells();
        self.watching.add_limit(alloc, set, limit, name, other)
    }

    /// Looks whether a watch has fired.
    fn check<R: Wait>(&mut self, rt: &R, db: &Db, name: &Text) -> Result<Reply, AllocError>
        requires own { IsOf db.now (caller_of self.old.open) }
        requires stands { Stands self.old.open }
        requires holds { Holds (caller_of self.old.open) self.old.watching }
        ensures turn { IfOk result (λ r. LooksAndReplies
            (commands.Watches (watches_line.Check name.now)) self.old self.new
            (reply_of (caller_of self.old.open).schema r)) }
        ensures caller { IsLater (caller_of self.old.open) (caller_of self.new.open) }
        ensures unmade { (caller_of self.new.open).own ≡ (caller_of self.old.open).own }
    {
        match &mut self.open {
            Open::Nothing(pass) => self.watching.check(rt, db, pass, name),
            Open::Reading(pass, _) => self.watching.check(rt, db, pass, name),
            Open::Writing(_) => Ok(Reply::Refused(Rule::WriteOpen)),
        }
    }

    /// Waits till a watch of a set has fired, or the watch that cancels, if there is one.
    fn wait<R: Wait>(
        &mut self,
        rt: &R,
        alloc: Global,
        db: &Db,
        set: &Text,
        until: Option<&Text>,
    ) -> Result<Reply, AllocError>
        requires own { IsOf db.now (caller_of self.old.open) }
        requires stands { Stands self.old.open }
        requires holds { Holds (caller_of self.old.open) self.old.watching }
        ensures turn { IfOk result (λ r. LooksAndReplies
            (commands.Watches (wait_for set.now (option_copied until.entry))) self.old self.new
            (reply_of (caller_of self.old.open).schema r)) }
        ensures caller { IsLater (caller_of self.old.open) (caller_of self.new.open) }
        ensures unmade { (caller_of self.new.open).own ≡ (caller_of self.old.open).own }
    {
        match &mut self.open {
            Open::Nothing(pass) => self.watching.wait(rt, alloc, db, pass, set, until),
            Open::Reading(pass, _) => self.watching.wait(rt, alloc, db, pass, set, until),
            Open::Writing(_) => Ok(Reply::Refused(Rule::WriteOpen)),
        }
    }

    /// The same, but for one look at each. It gives no reply where all are quiet.
    fn wait_once<R: Wait>(
        &mut self,
        rt: &R,
        alloc: Global,
        db: &Db,
        set: &Text,
        until: Option<&Text>,
    ) -> Result<Option<Reply>, AllocError>
        requires own { IsOf db.now (caller_of self.old.open) }
        requires stands { Stands self.old.open }
        requires holds { Holds (caller_of self.old.open) self.old.watching }
        ensures turn { IfOk result (λ r. AnswersOnce (wait_for set.now (option_copied until.entry))
            self.old self.new (option_map (reply_of (caller_of self.old.open).schema) r)) }
        ensures caller { IsLater (caller_of self.old.open) (caller_of self.new.open) }
        ensures unmade { (caller_of self.new.open).own ≡ (caller_of self.old.open).own }
    {
        match &mut self.open {
            Open::Nothing(pass) => self.watching.look_once(rt, alloc, db, pass, set, until),
            Open::Reading(pass, _) => self.watching.look_once(rt, alloc, db, pass, set, until),
            Open::Writing(_) => Ok(Some(Reply::Refused(Rule::WriteOpen))),
        }
    }

    /// Keeps a snapshot of the present state of the open transaction under a name.
    fn keep(&mut self, alloc: Global, name: &Text) -> Result<Reply, AllocError>
        requires stands { Stands self.old.open }
        ensures turn { IfOk result (λ r. RepliesTo
            (commands.Name (name_line.Snapshot name.now)) self.old self.new
            (reply_of (caller_of self.old.open).schema r)) }
        ensures caller { caller_of self.new.open ≡ caller_of self.old.open }
    {
        match &self.open {
            Open::Nothing(_) => Ok(Reply::Refused(Rule::NoTransaction)),
            Open::Reading(_, _) | Open::Writing(_) => {
                if self.snapshots.has(name) {
                    Ok(Reply::Refused(Rule::NameTaken))
                } else {
                    self.keep_new(alloc, name)
                }
            }
        }
    }

    /// The same under a name that no snapshot has.
    fn keep_new(&mut self, alloc: Global, name: &Text) -> Result<Reply, AllocError>
        requires stands { Stands self.old.open }
        requires opened { IsOpen self.old.open }
        requires free { is_some (seen_in self.old.snapshots name.now) ≡ false }
        ensures turn { IfOk result (λ r. RepliesTo
            (commands.Name (name_line.Snapshot name.now)) self.old self.new
            (reply_of (caller_of self.old.open).schema r)) }
        ensures caller { caller_of self.new.open ≡ caller_of self.old.open }
    {
        let present = self.open.present()?;
        keep_present(&mut self.snapshots, alloc, name, present)
    }

    /// What a question of a snapshot is answered.
    fn ask_snapshot(&self, name: &Text, query: &Query) -> Result<Reply, AllocError>
        requires stands { Stands self.now.open }
        ensures { IfOk result (λ r. RepliesTo
            (commands.Ask (ask_line.InSnapshot name.now query.now)) self.now self.now
            (reply_of (caller_of self.now.open).schema r)) }
    {
        let Some(kept) = self.snapshots.get(name) else {
            return Ok(Reply::Refused(Rule::UnknownName));
        };
        match kept.ask(query) {
            Ok(answer) => Ok(Reply::Answered(answer)),
            Err(error) => refused(Rule::of_question(error)),
        }
    }

    /// The state with the pass alone, after what is open was ended or aborted. It takes no memory.
    pub(crate) fn closed(self, alloc: Global, db: &Db) -> SessionState
        requires own { IsOf db.now (caller_of self.open) }
        ensures caller { caller_of result.open ≡ caller_of self.open }
        ensures closed { is_writing result.open ≡ false }
    {
        SessionState::new(alloc, self.close(db))
    }

    /// The pass, after what is open was ended or aborted.
    pub(crate) fn close(self, db: &Db) -> Pass
        requires own { IsOf db.now (caller_of self.open) }
        ensures { result ≡ caller_of self.open }
    {
        let SessionState {
            open,
            snapshots,
            watching,
        } = self;
        drop(snapshots);
        drop(watching);
        open.close(db)
    }
}

/// Keeps a snapshot under a name, and gives the reply that comes with it.
fn keep_present(
    snapshots: &mut Named<AnySnapshot>,
    alloc: Global,
    name: &Text,
    present: (AnySnapshot, Reply),
) -> Result<Reply, AllocError>
    ensures reply { IfOk result (λ r. r ≡ present.1) }
    ensures kept { OnOk result ((q : Bytes) → get_by_text snapshots.new.kept q
        ≡ cond (bytes_eq name.now q) (Some present.0) (get_by_text snapshots.old.kept q)) }
{
    let (kept, reply) = present;
    snapshots.keep(alloc, name, kept).and(Ok(reply))
}
