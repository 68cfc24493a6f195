//! Sessions of two callers of one database, step by step.
ghost use Rattle.std.specs.Prelude.{◌≡◌, [], IfOk};
ghost use Rattle.mem_txn.specs.CallerOf.{IsCaller};

use super::{Told, schema_of, script_of};
use client_script::Script;
use client_session::{Session, Stepped};
use mem_txn::{Db, Pass, Passes};
use std::alloc::{AllocError, Global};
use std::marker::Model;
use std::sync::Wait;
use std::test::Fail;

const SCHEMA: &str = r#"{"memdb":1,"tables":{
"notes":{"indexes":{"id":{"unique":true,"indexer":{"kind":"text","field":"name"}}}}}}"#;

/// Steps of one caller: whether it is the second, how many they are, and what the last one does.
type Turn = (bool, u32, Stepped);

/// The scripts of two callers, their turns, the answers of each, and how many commits are made.
#[derive(Clone, Copy)]
struct Pair {
    first: &'static str,
    second: &'static str,
    turns: &'static [Turn],
    first_told: &'static str,
    second_told: &'static str,
    commits: u64,
}

/// The other caller sees the first one's commit, and makes one of its own, which the first sees.
static SEEN: Pair = Pair {
    first: "read\nfirst notes id [\"a\"]\nend\nwrite\ninsert notes {\"name\":\"a\"}\ncommit\nread\nget notes id []\n",
    second: "read\nget notes id []\nend\nwrite\ninsert notes {\"name\":\"b\"}\ncommit\n",
    turns: &[
        (false, 6, Stepped::Answered { line: 6 }),
        (true, 6, Stepped::Answered { line: 6 }),
        (false, 2, Stepped::Answered { line: 8 }),
    ],
    first_told: "1: read @0\n2: none\n3: ended\n4: write @0\n5: inserted\n6: commit @1\n7: read @2\n8: rows 2\n  {\"name\":\"a\"}\n  {\"name\":\"b\"}\n",
    second_told: "1: read @1\n2: rows 1\n  {\"name\":\"a\"}\n3: ended\n4: write @1\n5: inserted\n6: commit @2\n",
    commits: 2,
};

/// While one writes, the other's `write` is blocked, and tells nothing. What is open at the end is
/// aborted.
static BLOCKED: Pair = Pair {
    first: "write\ncommit\n",
    second: "write\n",
    turns: &[
        (false, 1, Stepped::Answered { line: 1 }),
        (true, 1, Stepped::Blocked { line: 1 }),
        (false, 1, Stepped::Answered { line: 2 }),
        (true, 1, Stepped::Answered { line: 1 }),
    ],
    first_told: "1: write @0\n2: commit @1\n",
    second_told: "1: write @1\n",
    commits: 1,
};

/// What is open when no line is left is aborted, and so the other's `write` is blocked no longer.
static ABORTED: Pair = Pair {
    first: "write\ninsert notes {\"name\":\"a\"}\n",
    second: "write\ncommit\n",
    turns: &[
        (false, 2, Stepped::Answered { line: 2 }),
        (true, 1, Stepped::Blocked { line: 1 }),
        (false, 1, Stepped::Ended),
        (true, 2, Stepped::Answered { line: 2 }),
    ],
    first_told: "1: write @0\n2: inserted\n",
    second_told: "1: write @0\n2: commit @1\n",
    commits: 1,
};

/// A wait is blocked till the other's commit fires what it waits for.
static WOKEN: Pair = Pair {
    first: "read\nwatch w first notes id [\"n\"]\nend\nadd s w\nwait s\n",
    second: "write\ninsert notes {\"name\":\"n\"}\ncommit\n",
    turns: &[
        (false, 4, Stepped::Answered { line: 4 }),
        (false, 1, Stepped::Blocked { line: 5 }),
        (true, 3, Stepped::Answered { line: 3 }),
        (false, 1, Stepped::Answered { line: 5 }),
    ],
    first_told: "1: read @0\n2: none\n3: ended\n4: size 1\n5: fired w @1\n",
    second_told: "1: write @0\n2: inserted\n3: commit @1\n",
    commits: 1,
};

/// A read transaction answers from the commit on which it began, though another is made in its midst.
static MIDST: Pair = Pair {
    first: "read\nget notes id\n",
    second: "write\ninsert notes {\"name\":\"z\"}\ncommit\n",
    turns: &[
        (false, 1, Stepped::Answered { line: 1 }),
        (true, 3, Stepped::Answered { line: 3 }),
        (false, 1, Stepped::Answered { line: 2 }),
    ],
    first_told: "1: read @0\n2: rows 0\n",
    second_told: "1: write @0\n2: inserted\n3: commit @1\n",
    commits: 1,
};

/// A database of two callers, the list of its passes without them, and they.
fn two_callers(alloc: Global) -> Result<(Db, Passes, Pass, Pass), AllocError>
    ensures one { IfOk result (λ made. IsCaller made.0 1 made.2) }
    ensures two { IfOk result (λ made. IsCaller made.0 2 made.3) }
    ensures both { IfOk result (λ made. made.0.callers ≡ 2) }
    ensures rest { IfOk result (λ made. made.1 ≡ record { passes = []; made = 2 }) }
{
    let (db, mut passes) = Db::create(alloc, schema_of(alloc, SCHEMA)?, 2)?;
    match (passes.take(), passes.take()) {
        (Some(one), Some(two)) => Ok((db, passes, one, two)),
        _ => unreachable!(),
    }
}

/// A database of two callers, and the session of each.
struct Duo {
    db: Db,
    passes: Passes,
    one: Session,
    two: Session,
}

impl Model for Duo {
    ghost use Rattle.std.specs.Prelude.{◌≡◌, []};
    ghost use Rattle.mem_txn.specs.CallerOf.{IsCaller};

    ghost Value = { Unit {0} };

    ghost view = { λ d. tt };

    ghost invariant = { λ d. IsCaller d.db 1 d.one.caller × IsCaller d.db 2 d.two.caller
        × (d.db.callers ≡ 2) × (d.passes ≡ record { passes = []; made = 2 }) };
}

impl Duo {
    /// The sessions of two scripts in a new database.
    fn of(alloc: Global, first: Script, second: Script) -> Result<Duo, AllocError> {
        let (db, passes, one, two) = two_callers(alloc)?;
        Ok(Duo {
            db,
            passes,
            one: Session::new(alloc, one.number(), first, one),
            two: Session::new(alloc, two.number(), second, two),
        })
    }

    /// The sessions of a pair in a new database.
    fn opened(alloc: Global, pair: &Pair) -> Result<Duo, AllocError> {
        let first = script_of(alloc, pair.first)?;
        Duo::of(alloc, first, script_of(alloc, pair.second)?)
    }

    /// Takes a step of the first caller, or of the second.
    fn step<R: Wait>(&mut self, rt: &R, second: bool) -> Result<Stepped, AllocError> {
        if second {
            self.two.step(rt, &self.db)
        } else {
            self.one.step(rt, &self.db)
        }
    }

    /// Takes the steps of a turn, and tells what the last one did.
    fn last_step<R: Wait>(&mut self, rt: &R, turn: Turn) -> Result<Stepped, AllocError> {
        let mut last = Stepped::Ended;
        for _ in 0..turn.1 {
            last = self.step(rt, turn.0)?;
        }
        Ok(last)
    }

    /// Whether all turns end so.
    fn takes<R: Wait>(&mut self, rt: &R, turns: &[Turn]) -> Told {
        for at in 0..turns.len() {
            if self.last_step(rt, turns[at])? != turns[at].2 {
                return Ok(false);
            }
        }
        Ok(true)
    }

    /// Whether the second caller's first line is answered once the first takes no further step: no
    /// line is left, or it found no memory.
    fn is_free_then<R: Wait>(&mut self, rt: &R) -> Told {
        for _ in 0..4 {
            match self.step(rt, false) {
                Ok(Stepped::Ended) | Err(_) => break,
                Ok(_) => {}
            }
        }
        Ok(self.step(rt, true)? == Stepped::Answered { line: 1 })
    }

    /// Whether each caller has its answers.
    fn have_told(&self, pair: &Pair) -> bool {
        self.one.answers() == pair.first_told.as_bytes()
            && self.two.answers() == pair.second_told.as_bytes()
    }

    /// Ends both sessions and closes their database, and gives the number of commits.
    fn close<R: Wait>(self, rt: &R) -> u64 {
        let Duo {
            db,
            mut passes,
            one,
            two,
        } = self;
        passes.give(one.end(&db));
        passes.give(two.end(&db));
        db.close(rt, passes).number()
    }
}

/// Whether all turns end so, and each caller has its answers then.
fn are_told<R: Wait>(rt: &R, duo: &mut Duo, pair: &Pair) -> Told {
    Ok(duo.takes(rt, pair.turns)? && duo.have_told(pair))
}

/// Whether two callers of a new database are told so, and make so many commits.
fn holds<R: Wait>(rt: &R, alloc: Global, pair: &Pair) -> Told {
    let mut duo = Duo::opened(alloc, pair)?;
    let told = are_told(rt, &mut duo, pair);
    let commits = duo.close(rt);
    Ok(told? && commits == pair.commits)
}

#[test]
fn two_callers_see_each_other(rt: HostRuntime) -> Result<(), Fail> {
    assert!(rt; holds(&rt, rt.alloc(), &SEEN)?);
    Ok(())
}

#[test]
fn a_read_stays_as_it_began(rt: HostRuntime) -> Result<(), Fail> {
    assert!(rt; holds(&rt, rt.alloc(), &MIDST)?);
    Ok(())
}

#[test]
fn a_write_is_blocked_while_another_writes(rt: HostRuntime) -> Result<(), Fail> {
    assert!(rt; holds(&rt, rt.alloc(), &BLOCKED)?);
    Ok(())
}

#[test]
fn what_is_open_at_the_end_is_aborted(rt: HostRuntime) -> Result<(), Fail> {
    assert!(rt; holds(&rt, rt.alloc(), &ABORTED)?);
    Ok(())
}

/// Whether the second caller of a new database can write behind the first.
fn is_free<R: Wait>(rt: &R, alloc: Global) -> Told {
    let mut duo = Duo::opened(alloc, &ABORTED)?;
    let free = duo.is_free_then(rt);
    duo.close(rt);
    free
}

// With one allocation refused, the first caller may find no memory at any of its lines.
#[test]
fn no_turn_is_kept_after_the_last_step(rt: HostRuntime) -> Result<(), Fail> {
    assert!(rt; is_free(&rt, rt.alloc())?);
    Ok(())
}

#[test]
fn a_wait_is_blocked_till_another_commits(rt: HostRuntime) -> Result<(), Fail> {
    assert!(rt; holds(&rt, rt.alloc(), &WOKEN)?);
    Ok(())
}
