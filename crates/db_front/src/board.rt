//! The table that the callers share: words, and for each caller a slot with the current value and its
//! log. A turn word is 0, or the number of the caller that has the turn. The words that different
//! callers use lie eight apart, and so do the slots. The rule of the table is in
//! `specs/inner/FrontRule.antt`.
ghost use Rattle.std.specs.Prelude.{◌≡◌, ◌≤◌};
ghost use Rattle.db_front.specs.Steps;
ghost use Rattle.db_front.specs.inner.FrontRule;

use crate::card::Card;
use crate::version::Version;
use atomic_table::{Seat, Table, TableRule};
use std::alloc::Global;
use std::collections::LinkedList;
use std::marker::{Model, PhantomData};
use std::sync::Arc;
use watch_word::Front;

/// The word that counts the commits.
pub(crate) const COUNT: usize = 0;

/// The word that counts the finished commits.
pub(crate) const DONE: usize = 1;

/// The writer's turn.
pub(crate) const WRITER: usize = 8;

/// The shown turn of a caller, which is also the place of its slot. Who has the turn may take the
/// slot's card out.
pub(crate) fn turn_of(number: u64) -> usize
    requires { number ≤ 64 }
    ensures { result ≡ Steps.turn_of number }
{
    8 + 8 * number as usize
}

/// How many words a table for so many callers has, and how many places for slots.
pub(crate) fn size_of(callers: u64) -> usize
    requires { callers ≤ 64 }
    ensures { result ≡ FrontRule.size_of callers }
{
    16 + 8 * callers as usize
}

/// What the table is told once: the opening value and the number of callers.
#[derive(Drop)]
pub(crate) struct Opening<V: Drop> {
    pub(crate) value: Arc<V>,
    pub(crate) callers: u64,
}

impl<V: Drop> Model for Opening<V> {
    ghost use Rattle.std.specs.Prelude.{ℕ};
    ghost use Rattle.std.specs.Arc.{arc_value};

    ghost Value = { V × ℕ };

    ghost view = { λ o. (arc_value o.value, o.callers) };
}

/// What a seat knows, in proofs alone: no value of this type is made.
pub(crate) struct View<V> {
    /// How many callers the front has.
    pub(crate) callers: u64,
    /// The caller's number.
    pub(crate) number: u64,
    /// The list that it has seen, from the opening value on.
    pub(crate) seen: LinkedList<(u64, V)>,
    /// Its own commits.
    pub(crate) mine: LinkedList<(u64, V)>,
    /// Further numbers, each with its commits and with the list that it has seen.
    pub(crate) more: LinkedList<(u64, LinkedList<(u64, V)>, LinkedList<(u64, V)>)>,
    /// What its loads of the number of commits gave.
    pub(crate) counts: LinkedList<u64>,
    /// What its tries for the writer's turn found.
    pub(crate) tries: LinkedList<u64>,
    /// 0 without the writer's turn, 1 with it, 2 where it has published, and one more for each slot
    /// that besides has the new log.
    pub(crate) stage: u64,
    /// The shown turns that it holds, each with the log that was in its slot, the last one first.
    pub(crate) outs: LinkedList<(u64, Front)>,
}

/// The rule of the table.
pub(crate) struct Law<V> {
    version: PhantomData<V>,
}

impl<V: Version> TableRule<Option<Card<V>>, View<V>, Opening<V>> for Law<V> {
    ghost use Rattle.db_front.specs.inner.FrontRule.{KeepsRule, first_view};

    ghost holds = { λ key. KeepsRule V.stands V.fired key.1 };

    ghost first = { first_view };
}

pub(crate) type Board<V> = atomic_table::Shared<Option<Card<V>>, View<V>, Opening<V>, Law<V>>;

pub(crate) type BoardTable<V> = Table<Option<Card<V>>, View<V>, Opening<V>, Law<V>, Global>;

pub(crate) type Place<V> = Seat<Option<Card<V>>, View<V>>;
