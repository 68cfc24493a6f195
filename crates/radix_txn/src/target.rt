//! The keys that a delete takes.
ghost use Rattle.std.specs.Prelude.{◌≡◌};
ghost use Rattle.radix_txn.specs.inner.Removal.{covers};

/// Which keys a delete takes.
#[derive(Clone, Copy, Drop)]
pub enum Target {
    /// One whole key.
    Key,
    /// Those that begin with a prefix.
    Prefix,
}

impl Target {
    /// Whether all keys at and under a node go, where `after` is what the key or prefix has after
    /// the path to the node's prefix, and doesn't begin with that prefix.
    pub fn covers(self, prefix: &[u8], after: &[u8]) -> bool
        ensures { result ≡ covers self prefix.now after.now }
    {
        match self {
            Target::Key => false,
            Target::Prefix => prefix.starts_with(after),
        }
    }
}
