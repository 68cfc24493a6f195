//! What lies in a slot.
ghost use Rattle.std.specs.Prelude.{◌≡◌, IfOk};
ghost use Rattle.std.specs.Arc.{arc_value};

use crate::shown::Shown;
use crate::version::{Version, copy_of};
use std::alloc::{AllocError, Global};
use std::marker::Model;
use std::sync::Arc;
use watch_word::Front;

/// The current value with a front of the log.
#[derive(Drop)]
pub(crate) struct Card<V: Drop> {
    pub(crate) value: Arc<V>,
    pub(crate) log: Front,
}

impl<V: Drop> Model for Card<V> {
    ghost use Rattle.watch_word.specs.Logs.{Log};
    ghost use Rattle.std.specs.Arc.{arc_value};

    ghost Value = { V × Log };

    ghost view = { λ c. (arc_value c.value, c.log) };
}

impl<V: Drop> Card<V> {
    /// A second owner of the value and of the front.
    pub(crate) fn share(&self) -> Result<Card<V>, AllocError>
        ensures { IfOk result (λ c. c ≡ self.now) }
    {
        let value = Arc::try_clone(&self.value)?;
        let log = self.log.share();
        Ok(Card { value, log })
    }

    /// A card with a copy of the value, for another caller.
    pub(crate) fn copy(&self, alloc: Global) -> Result<Card<V>, AllocError>
    where
        V: Version,
        ensures { IfOk result (λ c. c ≡ self.now) }
    {
        let value = copy_of(alloc, &self.value)?;
        let log = self.log.share();
        Ok(Card { value, log })
    }

    /// What callers are shown of it after so many commits, of which so many are finished.
    pub(crate) fn shown(self, number: u64, finished: u64) -> Shown<V>
        ensures value { arc_value result.value ≡ self.0 }
        ensures log { result.log ≡ self.1 }
        ensures numbers { (result.number ≡ number) × (result.finished ≡ finished) }
    {
        let Card { value, log } = self;
        Shown {
            value,
            number,
            finished,
            log,
        }
    }
}
