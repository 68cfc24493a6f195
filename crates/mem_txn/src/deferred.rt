//! Deferred items.
ghost use Rattle.std.specs.Prelude.{◌≡◌, ◌∷◌, [], MatchOption, length, option_copied, reverse};
ghost use Rattle.std.specs.Prelude.{slice_get};
ghost use Rattle.mem_txn.specs.Transactions.{deferred_items};

/// The items that a commit hands out, last deferred first.
#[derive(Drop)]
pub struct DeferredList<D> {
    items: Vec<D>,
}

impl<D> DeferredList<D> {
    /// The list of items that were deferred in this order. It takes no memory.
    pub(crate) fn of(items: Vec<D>) -> DeferredList<D>
        ensures { deferred_items result ≡ reverse items.items }
    {
        DeferredList { items }
    }

    /// How many there are.
    pub fn len(&self) -> usize
        ensures { result ≡ length (deferred_items self.now) }
    {
        self.items.len()
    }

    /// The item at a place, counted from 0.
    pub fn get(&self, at: usize) -> Option<&D>
        ensures { option_copied result ≡ slice_get (deferred_items self.now) at }
    {
        let len = self.items.len();
        if at < len {
            Some(&self.items[len - 1 - at])
        } else {
            None
        }
    }

    /// Takes the first item out, so that `while let` goes through the list in order.
    pub fn take(&mut self) -> Option<D>
        ensures { MatchOption result
            ((deferred_items self.old ≡ []) × (deferred_items self.new ≡ []))
            (λ item. deferred_items self.old ≡ item ∷ deferred_items self.new) }
    {
        self.items.pop()
    }
}
