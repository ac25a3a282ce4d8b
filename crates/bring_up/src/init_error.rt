//! Why an adapter wasn't initialized.

ghost use Rattle.std.specs.Prelude.{◌≡◌};
ghost use Rattle.bring_up.specs.declared.init_error.InitError.TheVariants.{Memory};

use std::alloc::AllocError;
use thiserror::Error;

/// Why an adapter wasn't initialized. The call may be made again.
#[derive(Clone, Copy, Debug, PartialEq, Eq, Error)]
pub enum InitError {
    /// Memory couldn't be allocated. There was no access.
    #[error("E10 Memory")]
    Memory,
    /// 1,000 reads of EERD for one word of the EEPROM didn't show DONE.
    #[error("E11 EepromTimeout")]
    EepromTimeout,
    /// The sum of the 64 words of the EEPROM isn't 0xBABA modulo 65,536.
    #[error("E12 Checksum")]
    Checksum,
    /// After a command to the PHY, 1,000 reads of MDIC didn't show R, or one showed R and E.
    #[error("E13 PhyTimeout")]
    PhyTimeout,
    /// None of 1,000 reads of the PHY's status showed a link that is up and negotiated.
    #[error("E14 NoLink")]
    NoLink,
    /// The configuration isn't valid in this memory. There was no access.
    #[error("E15 Config")]
    Config,
}

impl From<AllocError> for InitError {
    ghost from_gives = { λ _ e. e ≡ Memory };

    fn from(_error: AllocError) -> InitError {
        InitError::Memory
    }
}
