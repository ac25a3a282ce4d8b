// The owner of a server's box, in a handle of C: an `Owner` of another type.

ghost use Rattle.std.specs.Prelude.{◌≡◌, Bool, true, false};
ghost use Rattle.adapter_server.specs.LineServers.{LineState};
ghost use Rattle.nic82540em.specs.ServerOwners.{server_owns, server_coded};

use crate::parts::Parts;
use adapter_server::LineServer;
use std::alloc::Global;
use std::marker::Model;
use std::mem::replace;

/// A boxed server, or no server. The owner is in a handle of C. After all bytes of the handle were set to 0, C code
/// neither reads nor writes the owner.
///
/// `ServerOwner` isn't `Drop`, so code that loses an owner doesn't compile. `into_parts` consumes a full owner, and
/// `into_alloc` an empty one.
#[repr(C)]
pub struct ServerOwner {
    /// The address of the server, or null in an empty owner.
    at: *mut u8,
    /// The allocator of the box. An empty owner also has an allocator, because the field can't be left out.
    alloc: Global,
    /// Whether the owner owns a box. The proofs of `empty` and `of_parts` set it.
    pub ghost full: { Bool },
    /// The server in the box, or any value in an empty owner. The same proofs set it.
    pub ghost value: { LineState } by { server_coded },
}

impl Model for ServerOwner {
    ghost also_owns = { λ o. server_owns o.full o.alloc o.at o.value };
}

impl ServerOwner {
    ghost use Rattle.std.specs.Borrow.{sem};
    ghost use Rattle.nic82540em.specs.ServerLending.{LendsServer};

    /// Returns the server of a full owner. When the borrow ends, the owner is still full, and its box contains the last
    /// value of the server.
    pub(crate) fn server(&mut self) -> &mut LineServer
        requires { self.old.full ≡ true }
        ensures* writes_back { sem 𝓛 (LendsServer self.entry result) }
        ensures value { result.now ≡ self.old.value }
    {
        let at = self.at as *mut LineServer;
        // This is safe because a full owner owns the box at this address.
        unsafe { &mut *at }
    }

    /// Removes and returns the server of a full owner. Afterwards the owner is empty, with the allocator `alloc`.
    pub(crate) fn take(&mut self, alloc: Global) -> Box<LineServer>
        requires { self.old.full ≡ true }
        ensures value { result.value ≡ self.old.value }
        ensures empty { self.new.full ≡ false }
    {
        // `into_parts` consumes the full owner, so an empty owner replaces it here.
        replace(self, ServerOwner::empty(alloc))
            .into_parts()
            .into_box()
    }

    /// Puts a server into an empty owner, which is full afterwards.
    pub(crate) fn put(&mut self, server: Box<LineServer>)
        requires { self.old.full ≡ false }
        ensures full { self.new.full ≡ true }
        ensures value { self.new.value ≡ server.value }
    {
        let owner = ServerOwner::of_parts(Parts::of(server));
        // The replaced owner is empty, so only its allocator is left.
        let _alloc = replace(self, owner).into_alloc();
    }

    /// Returns an empty owner.
    fn empty(alloc: Global) -> ServerOwner
        ensures { result.full ≡ false }
    {
        ServerOwner {
            at: std::ptr::null_mut(),
            alloc,
        }
    }

    /// Consumes an empty owner, and returns its allocator.
    fn into_alloc(self) -> Global
        requires { self.full ≡ false }
        ensures { result ≡ self.alloc }
    {
        let ServerOwner { at: _at, alloc } = self;
        alloc
    }

    /// Returns a full owner of the box with these parts.
    fn of_parts(parts: Parts<LineServer, Global>) -> ServerOwner
        ensures { (result.full ≡ true) × (result.value ≡ parts.value) }
    {
        let Parts { ptr, alloc } = parts;
        ServerOwner {
            at: ptr as *mut u8,
            alloc,
        }
    }

    /// Consumes a full owner, and returns the parts of its box.
    fn into_parts(self) -> Parts<LineServer, Global>
        requires { self.full ≡ true }
        ensures { result.value ≡ self.value }
    {
        let ServerOwner { at, alloc } = self;
        Parts {
            ptr: at as *mut LineServer,
            alloc,
        }
    }
}
