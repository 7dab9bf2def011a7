//! The row of one handle.
ghost use Rattle.std.specs.Prelude.{◌≡◌, ◌==◌, ◌++◌, [], ◌∷◌, not, IfOk, OnOk, OnErr};
ghost use Rattle.std.specs.List.{filter};

use crate::records::LiveHandle;
use crate::short_list::ShortList;
use std::alloc::{AllocError, Allocator};
use std::marker::Model;

/// A handle, and the keys of the interfaces on it in order of installation.
#[derive(Drop)]
pub(crate) struct HandleRow<A: Allocator> {
    live: LiveHandle,
    keys: ShortList<A>,
}

impl<A: Allocator> Model for HandleRow<A> {
    ghost use Rattle.guid_handles.specs.Indexes.{Row};

    ghost Value = { Row };

    ghost view = { λ r. record { live = r.live; keys = r.keys } };
}

impl<A: Allocator + Copy> HandleRow<A> {
    /// A handle without interfaces. This takes no memory.
    pub(crate) fn new(alloc: A, live: LiveHandle) -> Result<HandleRow<A>, AllocError>
        ensures { IfOk result (λ r. r ≡ record { live = live; keys = [] }) }
    {
        let keys = ShortList::new(alloc)?;
        Ok(HandleRow { live, keys })
    }

    /// The handle.
    pub(crate) fn live(&self) -> LiveHandle
        ensures { result ≡ self.now.live }
    {
        self.live
    }

    /// The keys.
    pub(crate) fn keys(&self) -> &[usize]
        ensures { result.now ≡ self.now.keys }
    {
        self.keys.as_slice()
    }

    /// Adds a key after the others. On an `Err` the row is as it was.
    pub(crate) fn push_key(&mut self, key: usize) -> Result<(), AllocError>
        ensures live { self.new.live ≡ self.old.live }
        ensures ok { OnOk result (self.new.keys ≡ self.old.keys ++ key ∷ []) }
        ensures err { OnErr result (self.new ≡ self.old) }
    {
        self.keys.push(key)
    }

    /// Removes a key.
    pub(crate) fn remove_key(&mut self, key: usize)
        ensures live { self.new.live ≡ self.old.live }
        ensures keys { self.new.keys ≡ filter (λ k. not (k == key)) self.old.keys }
    {
        self.keys.remove(key);
    }
}

impl<A: Allocator + Copy> Clone for HandleRow<A> {
    ghost is_clone = { λ m n. n ≡ m };

    fn clone(&self) -> Result<HandleRow<A>, AllocError> {
        let keys = self.keys.clone()?;
        Ok(HandleRow {
            live: self.live,
            keys,
        })
    }
}
