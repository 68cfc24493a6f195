//! The open transaction of a session.
ghost use Rattle.std.specs.Prelude.{◌≡◌, IfOk, OnErr, Ok, Err, option_map};
ghost use Rattle.mem_txn.specs.Checked.{IdsTellCells};
ghost use Rattle.mem_txn.specs.Database.{IsOf};
ghost use Rattle.client_session.specs.Answered.{IsLater};
ghost use Rattle.client_script.specs.declared.command.Command.TheVariants as commands;
ghost use Rattle.client_script.specs.declared.command.TransactionCommand.TheVariants as transaction_line;
ghost use Rattle.client_session.specs.declared.open.Open.TheVariants as opens;
ghost use Rattle.client_session.specs.declared.reply.Reply.TheVariants as replies;
ghost use Rattle.client_session.specs.inner.OpenView.{caller_of, is_writing, LooksAndTurns};
ghost use Rattle.client_session.specs.inner.OpenView.{Stands, TriesWrite, TurnsTo};
ghost use Rattle.client_session.specs.inner.ReplyOf.{reply_of};

use crate::reply::Reply;
use client_script::{Rule, TransactionCommand};
use mdb_datum::Text;
use mem_txn::pass_laws::{ids_tell_cells, ids_tell_cells_within};
use mem_txn::{
    BeginError, BeginRefused, CommitRefused, Committed, Db, Pass, ReadTxn, Tried, WriteTxn,
};
use std::alloc::AllocError;
use std::sync::Wait;

/// What is open. It owns the client's pass.
pub(crate) enum Open {
    Nothing(Pass),
    Reading(Pass, ReadTxn),
    Writing(WriteTxn<Text>),
}

impl Open {
    /// Whether a write transaction is open.
    pub(crate) fn is_writing(&self) -> bool
        ensures { result ≡ is_writing self.now }
    {
        matches!(self, Open::Writing(_))
    }

    /// What is known of the client's pass: of the watches that it holds, ids tell cells.
    pub(crate) fn ids_tell_cells(&self)
        ensures { IdsTellCells (caller_of self.now) }
    {
        match self {
            Open::Nothing(pass) => ids_tell_cells(pass),
            Open::Reading(pass, _) => ids_tell_cells(pass),
            Open::Writing(txn) => ids_tell_cells_within(txn),
        }
    }

    /// Carries out a command that begins or ends a transaction.
    pub(crate) fn turn<R: Wait>(
        self,
        rt: &R,
        db: &Db,
        command: &TransactionCommand,
    ) -> (Open, Result<Reply, AllocError>)
        requires own { IsOf db.now (caller_of self) }
        requires stands { Stands self }
        ensures turn { IfOk result.1 (λ r. LooksAndTurns command.now self result.0
            (reply_of (caller_of self).schema r)) }
        ensures caller { IsLater (caller_of self) (caller_of result.0) }
        ensures unmade { OnErr result.1 ((caller_of result.0).own ≡ (caller_of self).own) }
    {
        match command {
            TransactionCommand::Read => self.read(rt, db),
            TransactionCommand::Write => self.write(rt, db),
            TransactionCommand::End => told(self.end()),
            TransactionCommand::Commit => self.commit(rt, db),
            TransactionCommand::Abort => told(self.abort(db)),
        }
    }

    /// Begins a read transaction.
    pub(crate) fn read<R: Wait>(self, rt: &R, db: &Db) -> (Open, Result<Reply, AllocError>)
        requires own { IsOf db.now (caller_of self) }
        requires stands { Stands self }
        ensures turn { IfOk result.1 (λ r. LooksAndTurns transaction_line.Read self result.0
            (reply_of (caller_of self).schema r)) }
        ensures caller { IsLater (caller_of self) (caller_of result.0) }
        ensures unmade { OnErr result.1 ((caller_of result.0).own ≡ (caller_of self).own) }
    {
        match self {
            Open::Nothing(mut pass) => match db.read(rt, &mut pass) {
                Ok(txn) => {
                    let number = txn.number();
                    (Open::Reading(pass, txn), Ok(Reply::ReadAt(number)))
                }
                Err(error) => (Open::Nothing(pass), Err(error)),
            },
            open => (open, Ok(Reply::Refused(Rule::TransactionOpen))),
        }
    }

    /// Begins a write transaction. It waits for the writer's turn.
    pub(crate) fn write<R: Wait>(self, rt: &R, db: &Db) -> (Open, Result<Reply, AllocError>)
        requires own { IsOf db.now (caller_of self) }
        requires stands { Stands self }
        ensures turn { IfOk result.1 (λ r. LooksAndTurns transaction_line.Write self result.0
            (reply_of (caller_of self).schema r)) }
        ensures caller { IsLater (caller_of self) (caller_of result.0) }
        ensures unmade { OnErr result.1 ((caller_of result.0).own ≡ (caller_of self).own) }
    {
        match self {
            Open::Nothing(pass) => match db.write(rt, pass) {
                Ok(txn) => {
                    let number = txn.number();
                    (Open::Writing(txn), Ok(Reply::WriteAt(number)))
                }
                Err(
                    BeginRefused {
                        pass,
                        cause: BeginError::CommitsSpent,
                    },
                ) => (Open::Nothing(pass), Ok(Reply::Refused(Rule::CommitsSpent))),
                Err(
                    BeginRefused {
                        pass,
                        cause: BeginError::Memory,
                    },
                ) => (Open::Nothing(pass), Err(AllocError)),
            },
            open => (open, Ok(Reply::Refused(Rule::TransactionOpen))),
        }
    }

    /// The same, but for one try. It gives no reply where another has the writer's turn.
    pub(crate) fn try_write<R: Wait>(
        self,
        rt: &R,
        db: &Db,
    ) -> (Open, Result<Option<Reply>, AllocError>)
        requires own { IsOf db.now (caller_of self) }
        requires stands { Stands self }
        ensures turn { IfOk result.1 (λ r. TriesWrite db.now.callers self result.0
            (option_map (reply_of (caller_of self).schema) r)) }
        ensures caller { IsLater (caller_of self) (caller_of result.0) }
        ensures unmade { OnErr result.1 ((caller_of result.0).own ≡ (caller_of self).own) }
    {
        match self {
            Open::Nothing(pass) => match db.try_write(rt, pass) {
                Ok(Tried::Begun(txn)) => {
                    let number = txn.number();
                    (Open::Writing(txn), Ok(Some(Reply::WriteAt(number))))
                }
                Ok(Tried::Taken(pass)) => (Open::Nothing(pass), Ok(None)),
                Err(
                    BeginRefused {
                        pass,
                        cause: BeginError::CommitsSpent,
                    },
                ) => (
                    Open::Nothing(pass),
                    Ok(Some(Reply::Refused(Rule::CommitsSpent))),
                ),
                Err(
                    BeginRefused {
                        pass,
                        cause: BeginError::Memory,
                    },
                ) => (Open::Nothing(pass), Err(AllocError)),
            },
            open => (open, Ok(Some(Reply::Refused(Rule::TransactionOpen)))),
        }
    }

    /// Ends the read transaction.
    pub(crate) fn end(self) -> (Open, Reply)
        requires stands { Stands self }
        ensures turn { TurnsTo (commands.Transaction transaction_line.End) self result.0
            (reply_of (caller_of self).schema result.1) }
        ensures caller { caller_of result.0 ≡ caller_of self }
    {
        match self {
            Open::Nothing(pass) => (Open::Nothing(pass), Reply::Refused(Rule::NoTransaction)),
            Open::Reading(pass, _) => (Open::Nothing(pass), Reply::Ended),
            open => (open, Reply::Refused(Rule::WriteOpen)),
        }
    }

    /// Commits the write transaction.
    pub(crate) fn commit<R: Wait>(self, rt: &R, db: &Db) -> (Open, Result<Reply, AllocError>)
        requires own { IsOf db.now (caller_of self) }
        requires stands { Stands self }
        ensures turn { IfOk result.1 (λ r. TurnsTo
            (commands.Transaction transaction_line.Commit) self result.0
            (reply_of (caller_of self).schema r)) }
        ensures caller { IsLater (caller_of self) (caller_of result.0) }
        ensures unmade { OnErr result.1 ((caller_of result.0).own ≡ (caller_of self).own) }
    {
        match self {
            Open::Writing(txn) => match txn.commit(rt, db) {
                Ok(committed) => committed_turn(committed),
                Err(CommitRefused { pass, cause: _ }) => (Open::Nothing(pass), Err(AllocError)),
            },
            Open::Reading(pass, txn) => (
                Open::Reading(pass, txn),
                Ok(Reply::Refused(Rule::ReadOnly)),
            ),
            Open::Nothing(pass) => (Open::Nothing(pass), Ok(Reply::Refused(Rule::NoTransaction))),
        }
    }

    /// Aborts the write transaction.
    pub(crate) fn abort(self, db: &Db) -> (Open, Reply)
        requires own { IsOf db.now (caller_of self) }
        requires stands { Stands self }
        ensures turn { TurnsTo (commands.Transaction transaction_line.Abort) self result.0
            (reply_of (caller_of self).schema result.1) }
        ensures caller { caller_of result.0 ≡ caller_of self }
    {
        match self {
            Open::Writing(txn) => (Open::Nothing(txn.abort(db)), Reply::Aborted),
            Open::Reading(pass, txn) => (Open::Reading(pass, txn), Reply::Refused(Rule::ReadOnly)),
            Open::Nothing(pass) => (Open::Nothing(pass), Reply::Refused(Rule::NoTransaction)),
        }
    }

    /// The pass, after what is open was ended or aborted.
    pub(crate) fn close(self, db: &Db) -> Pass
        requires own { IsOf db.now (caller_of self) }
        ensures { result ≡ caller_of self }
    {
        match self {
            Open::Nothing(pass) => pass,
            Open::Reading(pass, _) => pass,
            Open::Writing(txn) => txn.abort(db),
        }
    }
}

/// What is open, and a reply that needs no memory.
fn told(turn: (Open, Reply)) -> (Open, Result<Reply, AllocError>)
    ensures { result ≡ (turn.0, Ok turn.1) }
{
    let (open, reply) = turn;
    (open, Ok(reply))
}

/// What is open after a commit, and the reply.
fn committed_turn(committed: Committed<Text>) -> (Open, Result<Reply, AllocError>)
    ensures { result ≡ (opens.Nothing committed.pass, Ok (replies.Committed committed.receipt)) }
{
    let Committed { pass, receipt } = committed;
    (Open::Nothing(pass), Ok(Reply::Committed(receipt)))
}
