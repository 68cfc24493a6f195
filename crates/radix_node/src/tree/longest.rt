//! The longest stored prefix of a key.
ghost use Rattle.std.specs.Prelude.{◌≡◌, option_copied, option_map};
ghost use Rattle.radix_node.specs.Longest.{prefixes_of, longest_pair, longest};
ghost use Rattle.radix_node.specs.Cells.{plain_of};
ghost use Rattle.radix_node.specs.Nodes.{pairs_of};

use crate::leaf::Leaf;
use crate::tree::Tree;
use mdb_datum::Row;

impl Tree {
    /// The row under the longest key that is a prefix of `key`, if there is one. It takes no
    /// memory, and time in the length of `key`, with a binary search among the edges at each node
    /// on the way.
    pub fn longest(&self, key: &[u8]) -> Option<&Row>
        ensures { option_copied result ≡ longest key.now (pairs_of (plain_of self.now)) }
    {
        Some(self.last_on_path(key)?.row())
    }

    /// The leaf of the longest key that is a prefix of `key`: the last one on the way down.
    fn last_on_path(&self, key: &[u8]) -> Option<&Leaf>
        ensures { option_map (λ l. l.now.pair) result
            ≡ longest_pair (prefixes_of key.now (pairs_of (plain_of self.now))) }
    {
        let mut node = self.root();
        let mut best = node.leaf();
        let mut rest = key;
        while let Some((first, after)) = rest.split_first() {
            let Some(child) = node.child(*first) else {
                return best;
            };
            let Some(left) = child.strip_prefix(after) else {
                return best;
            };
            best = child.leaf().or(best);
            node = child;
            rest = left;
        }
        best
    }
}
