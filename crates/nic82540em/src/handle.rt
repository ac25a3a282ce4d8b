// The handle of an adapter.

ghost use Rattle.std.specs.Prelude.{◌≡◌, IfErr, IfOk, false, true};

use crate::owner::Owner;
use crate::watched::WatchedAdapter;
use std::alloc::{AllocError, Global};

/// A handle, which holds an adapter or no adapter. C sets all bytes of a handle to 0 before the first call.
#[repr(C)]
pub struct Nic {
    /// Whether the handle holds an adapter.
    pub held: bool,
    /// The owner of the adapter, if the handle holds one.
    pub owner: Owner,
}

impl Nic {
    ghost use Rattle.nic82540em.specs.Handles.{IsSound};

    /// Puts an adapter into a handle that holds no adapter.
    ///
    /// If memory is refused, frees the adapter, changes nothing in the handle, and returns an error.
    pub(crate) fn hold(&mut self, alloc: Global, adapter: WatchedAdapter) -> Result<(), AllocError>
        requires sound { IsSound self.old }
        requires free { self.old.held ≡ false }
        ensures sound { IsSound self.new }
        ensures held { IfOk result (λ _. (self.new.held ≡ true) × (self.new.owner.value ≡ adapter)) }
        ensures refused { IfErr result (λ _. self.new ≡ self.old) }
    {
        let boxed = Box::new(alloc, adapter)?;
        self.owner.put(boxed);
        self.held = true;
        Ok(())
    }
}

/// The result of a call on the adapter of a handle, or `$none` if the handle holds no adapter. The call is
/// `$call(adapter, $argument ..)`, or an expression after a name for the `&mut` to the adapter.
macro_rules! on_adapter {
    ($nic:ident, $none:expr, $call:path $(, $argument:expr)*) => {
        on_adapter!($nic, $none, |adapter| $call(adapter $(, $argument)*))
    };
    ($nic:ident, $none:expr, |$adapter:ident| $call:expr) => {
        if $nic.held {
            let $adapter = $nic.owner.adapter();
            $call
        } else {
            $none
        }
    };
}

pub(crate) use on_adapter;
