// The owner of an adapter's box, in a handle of C.

ghost use Rattle.std.specs.Prelude.{◌≡◌, Bool, true, false};
ghost use Rattle.nic82540em.specs.declared.watched.WatchedAdapter.{WatchedAdapter};
ghost use Rattle.nic82540em.specs.Owners.{held_owns, value_coded};

use crate::parts::Parts;
use crate::watched::WatchedAdapter;
use std::alloc::Global;
use std::marker::Model;
use std::mem::replace;

/// A boxed adapter, or no adapter. The owner is in a handle of C. After all bytes of the handle were set to 0, C code
/// neither reads nor writes the owner.
///
/// `Owner` isn't `Drop`, so code that loses an owner doesn't compile. `into_parts` consumes a full owner, and
/// `into_alloc` an empty one.
#[repr(C)]
pub struct Owner {
    /// The address of the adapter, or null in an empty owner.
    at: *mut u8,
    /// The allocator of the box. An empty owner also has an allocator, because the field can't be left out.
    alloc: Global,
    /// Whether the owner owns a box. The proofs of `empty` and `of_parts` set it.
    pub ghost full: { Bool },
    /// The adapter in the box, or any value in an empty owner. The same proofs set it.
    pub ghost value: { WatchedAdapter } by { value_coded },
}

impl Model for Owner {
    ghost also_owns = { λ o. held_owns o.full o.alloc o.at o.value };
}

impl Owner {
    ghost use Rattle.std.specs.Borrow.{sem};
    ghost use Rattle.nic82540em.specs.Lending.{LendsAdapter};

    /// Returns the adapter of a full owner. When the borrow ends, the owner is still full, and its box contains the last
    /// value of the adapter.
    pub(crate) fn adapter(&mut self) -> &mut WatchedAdapter
        requires { self.old.full ≡ true }
        ensures* writes_back { sem 𝓛 (LendsAdapter self.entry result) }
        ensures value { result.now ≡ self.old.value }
    {
        let at = self.at as *mut WatchedAdapter;
        // This is safe because a full owner owns the box at this address.
        unsafe { &mut *at }
    }

    /// Removes and returns the adapter of a full owner. Afterwards the owner is empty, with the allocator `alloc`.
    pub(crate) fn take(&mut self, alloc: Global) -> Box<WatchedAdapter>
        requires { self.old.full ≡ true }
        ensures value { result.value ≡ self.old.value }
        ensures empty { self.new.full ≡ false }
    {
        // `into_parts` consumes the full owner, so an empty owner replaces it here.
        replace(self, Owner::empty(alloc)).into_parts().into_box()
    }

    /// Puts an adapter into an empty owner, which is full afterwards.
    pub(crate) fn put(&mut self, adapter: Box<WatchedAdapter>)
        requires { self.old.full ≡ false }
        ensures full { self.new.full ≡ true }
        ensures value { self.new.value ≡ adapter.value }
    {
        let owner = Owner::of_parts(Parts::of(adapter));
        // The replaced owner is empty, so only its allocator is left.
        let _alloc = replace(self, owner).into_alloc();
    }

    /// Returns an empty owner.
    fn empty(alloc: Global) -> Owner
        ensures { result.full ≡ false }
    {
        Owner {
            at: std::ptr::null_mut(),
            alloc,
        }
    }

    /// Consumes an empty owner, and returns its allocator.
    fn into_alloc(self) -> Global
        requires { self.full ≡ false }
        ensures { result ≡ self.alloc }
    {
        let Owner { at: _at, alloc } = self;
        alloc
    }

    /// Returns a full owner of the box with these parts.
    fn of_parts(parts: Parts<WatchedAdapter, Global>) -> Owner
        ensures { (result.full ≡ true) × (result.value ≡ parts.value) }
    {
        let Parts { ptr, alloc } = parts;
        Owner {
            at: ptr as *mut u8,
            alloc,
        }
    }

    /// Consumes a full owner, and returns the parts of its box.
    fn into_parts(self) -> Parts<WatchedAdapter, Global>
        requires { self.full ≡ true }
        ensures { result.value ≡ self.value }
    {
        let Owner { at, alloc } = self;
        Parts {
            ptr: at as *mut WatchedAdapter,
            alloc,
        }
    }
}
