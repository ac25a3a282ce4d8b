// Lists of faults.

ghost use Rattle.std.specs.Prelude.{◌≡◌, ◌++◌, ◌∷◌, [], IfOk, OnErr, OnOk, flat_map};
ghost use Rattle.server_output.specs.Texts.{fault_words};

use crate::lines::push_fault;
use access_names::EngineFault;
use std::alloc::{AllocError, Global};
use std::marker::Model;

/// Faults that wait to be fetched, the oldest first. In contracts, the value is the list of these faults.
#[derive(Drop)]
pub struct Faults {
    faults: Vec<EngineFault>,
}

impl Model for Faults {
    ghost use Rattle.access_names.specs.declared.engine_fault.EngineFault.{EngineFault};
    ghost use Rattle.std.specs.Prelude.{List};

    ghost Value = { List EngineFault };

    ghost view = { λ list. list.faults.items };
}

impl Clone for Faults {
    ghost is_clone = { λ faults copy. copy ≡ faults };

    /// Returns the same faults, in the same order. Fails only if memory was refused.
    fn clone(&self) -> Result<Faults, AllocError> {
        Ok(Faults {
            faults: self.faults.clone()?,
        })
    }
}

impl Faults {
    /// Returns a list without a fault.
    pub fn new(alloc: Global) -> Faults
        ensures { result ≡ [] }
    {
        Faults {
            faults: Vec::new(alloc),
        }
    }

    /// Adds a fault after all others. If memory is refused, nothing changes.
    pub fn push(&mut self, fault: EngineFault) -> Result<(), AllocError>
        ensures ok { OnOk result (self.new ≡ self.old ++ fault ∷ []) }
        ensures err { OnErr result (self.new ≡ self.old) }
    {
        self.faults.push(fault)?;
        Ok(())
    }

    /// Returns the words of all faults, each word after a space, the oldest fault first.
    pub(crate) fn words(&self, alloc: Global) -> Result<Vec<u8>, AllocError>
        ensures { IfOk result (λ text. text.items ≡ flat_map fault_words self.now) }
    {
        let mut text = Vec::new(alloc);
        for fault in self.faults.as_slice() {
            push_fault(&mut text, *fault)?;
        }
        Ok(text)
    }
}
