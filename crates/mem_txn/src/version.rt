//! The value that a commit shows.
ghost use Rattle.std.specs.Prelude.{◌≡◌, [], IfOk};

use crate::accepted::Accepted;
use crate::view::View;
use radix_node::Ids;
use std::alloc::{AllocError, Global};
use std::marker::Model;
use std::sync::Arc;

/// What a version is made of.
#[derive(Drop)]
struct Contents {
    view: View,
    writes: Vec<Accepted>,
    ids: Ids,
}

impl Model for Contents {
    ghost use Rattle.mem_txn.specs.inner.Values.{Version};
    ghost use Rattle.mem_txn.specs.Codes.{version_code};

    ghost Value = { Version };

    ghost coded = { version_code };

    ghost use Rattle.mem_txn.specs.inner.Views.{contents_view};

    ghost view = { contents_view };
}

/// The state after a commit, with the writes of that commit and the ids of the cells that come
/// next; seen as a `Version`. It never changes. It may have several owners, so that each caller's
/// reads count the owners of a value of its own.
#[derive(Drop)]
pub(crate) struct Version {
    contents: Arc<Contents, Global>,
}

impl Model for Version {
    ghost use Rattle.mem_txn.specs.inner.Values.{Version};
    ghost use Rattle.mem_txn.specs.Codes.{version_code};

    ghost Value = { Version };

    ghost coded = { version_code };

    ghost use Rattle.mem_txn.specs.inner.Views.{version_view};

    ghost view = { version_view };
}

impl db_front::Version for Version {
    ghost use Rattle.mem_txn.specs.inner.Steps.{HasLastFirings};
    ghost use Rattle.mem_txn.specs.inner.Versions.{StandsFor};

    ghost stands = { StandsFor };

    ghost fired = { HasLastFirings };

    /// One more owner of the same. It takes no memory.
    fn copy(&self, _alloc: Global) -> Result<Version, AllocError>
        ensures { IfOk result (λ v. v ≡ self.now) }
    {
        Ok(Version {
            contents: Arc::try_clone(&self.contents)?,
        })
    }
}

impl Version {
    /// The state before the first commit.
    pub(crate) fn opening(alloc: Global, view: View, ids: Ids) -> Result<Version, AllocError>
        ensures { IfOk result (λ v.
            v ≡ record { view = view.view; trees = view.trees; writes = []; ids = ids }) }
    {
        Version::of(alloc, view, Vec::new(alloc), ids)
    }

    /// The state after a commit of these writes.
    pub(crate) fn of(
        alloc: Global,
        view: View,
        writes: Vec<Accepted>,
        ids: Ids,
    ) -> Result<Version, AllocError>
        ensures { IfOk result (λ v. v ≡ record {
          view = view.view;
          trees = view.trees;
          writes = writes.items;
          ids = ids;
        }) }
    {
        let contents = Contents { view, writes, ids };
        Ok(Version {
            contents: Arc::new(alloc, contents)?,
        })
    }

    /// The state.
    pub(crate) fn view(&self) -> &View
        ensures { result.now ≡ record { view = self.now.view; trees = self.now.trees } }
    {
        &self.contents.view
    }

    /// A second counter of the ids that come next.
    pub(crate) fn share_ids(&self) -> Result<Ids, AllocError>
        ensures { IfOk result (λ i. i ≡ self.now.ids) }
    {
        self.contents.ids.share()
    }
}
