//! Passes.
ghost use Rattle.std.specs.Prelude.{◌≡◌};
ghost use Rattle.watch_word.specs.Logs.{IsLater};

use crate::version::Version;
use std::marker::Model;
use watch_word::Front;

/// One caller's pass in the front that callers share.
pub(crate) type Token = db_front::Pass<Version>;

/// One caller's token, seen as a `Caller`: its number, its database, the commits that it has seen
/// and made, what it has read and tried, and the log of firings as far as it has seen it.
///
/// It can't be dropped: [`crate::Db::close`] takes it back.
pub struct Pass {
    pub(crate) token: Token,
}

impl Model for Pass {
    ghost use Rattle.mem_txn.specs.Database.{Caller};
    ghost use Rattle.mem_txn.specs.Codes.{caller_code};

    ghost Value = { Caller };

    ghost coded = { caller_code };

    ghost use Rattle.mem_txn.specs.inner.Views.{pass_view, IsIdle};

    ghost view = { pass_view };

    ghost invariant = { IsIdle };
}

impl Pass {
    /// The caller's number, counted from 1.
    pub fn number(&self) -> u32
        ensures { result ≡ self.now.number }
    {
        self.token.number() as u32
    }
}

/// Keeps what a log has, beside what the caller had seen of it.
pub(crate) fn hear(token: &mut Token, log: &Front)
    requires book { let old = token.old.log in log.now.book ≡ old.book }
    ensures later { IsLater token.old.log token.new.log }
    ensures heard { IsLater log.now token.new.log }
    ensures others { token.new ≡ record token.old { log = token.new.log } }
{
    let joined = token.log().joined(log);
    token.keep(joined);
}
