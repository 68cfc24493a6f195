//! The front that callers share: the current value and the log of firings, under one history of
//! commits.
//!
//! [`make_shared`] makes a [`Shared`] with one [`Pass`] for each caller, in [`Passes`]. A value
//! shown ([`Shown`]) stands, by the trait [`Version`], for the whole list of commits that the pass
//! has seen, and all passes see beginnings of one list. One caller at a time has the writer's turn,
//! from `begin` to `finish` or `leave`; `publish` is the commit. `close` ends all and gives the
//! last value. The layer above may use the clauses of these calls and the definitions of
//! `specs/Commits.antt`, `specs/Passes.antt` and `specs/AnyPass.antt`, which says the words on
//! passes for its own commits too. What a load and a try are is said in `specs/Steps.antt`.
//!
//! A `Pass`, a list of them and a [`Ready`] can't be let go: a program that drops one doesn't
//! compile. `close` takes the passes back, and `publish` the value made ready.
//!
//! Each caller has a slot of its own with the value and the log, and a shown turn at it. `look`
//! takes the own turn alone, so readers don't wait for each other. Nor do they share a count of
//! owners: `ready` makes a copy of the value for each caller ([`Version::copy`]), and `publish` lays
//! them into the slots. `publish` takes every shown turn and `finish` each of them once more, so the
//! cost of a commit grows with the number of callers. A turn is held to share the value and its log
//! or to change them, and never while values are made.
//!
//! Who waits for something to change announces it by `next_commit`, looks, and sleeps by
//! [`NextCommit::wait`] where it found nothing; `finish` wakes all that sleep so, where it is told
//! to. `end_waits` wakes them for good, for nobody may be left to commit.
//!
//! The layer above keeps in each pass the log that its caller has seen, by [`Pass::keep`]. No call
//! here reads it.
//!
//! A look costs a fixed number of atomic steps, where it needn't wait. A caller that finds a turn
//! taken looks at it for a short while, and then sleeps until it is given back. A call that takes a
//! runtime may wait for another caller, and its clauses hold if it returns. That a caller is ever
//! served is not proved.
//!
//! The log is a [`watch_word::Front`], which contracts see as its book and its cells. This crate
//! knows no book and no cell: what a log must have is said by [`Version`] alone, of the opening
//! value too, so that a database can say there that all its logs are of its one book.
//!
//! `AllocError` means want of memory alone. Only `make_shared`, `ready`, `look`, `begin` and
//! `try_begin` answer it, and the pass then holds no turn that it didn't hold before.
#![tactic(auto)]

mod board;
mod card;
mod close;
mod commits;
mod make;
mod pass;
mod passes;
mod plays;
mod shared;
mod shown;
mod turns;
mod version;
mod waits;

pub use make::make_shared;
pub use pass::Pass;
pub use passes::Passes;
pub use shared::Shared;
pub use shown::{Ready, Shown};
pub use version::Version;
pub use waits::NextCommit;
