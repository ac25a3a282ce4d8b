//! The offsets of dwords in configuration space (PCI 2.2, 6.1 "Configuration Space Organization").

/// Device ID and vendor ID.
pub(crate) const DEVICE_AND_VENDOR: u8 = 0x00;

/// Status and command.
pub(crate) const STATUS_AND_COMMAND: u8 = 0x04;

/// Class code and revision ID.
pub(crate) const CLASS_AND_REVISION: u8 = 0x08;

/// Base address register 0.
pub(crate) const BASE_ADDRESS: u8 = 0x10;

/// Subsystem ID and subsystem vendor ID.
pub(crate) const SUBSYSTEM: u8 = 0x2C;

/// Max_Lat, Min_Gnt, interrupt pin and interrupt line.
pub(crate) const INTERRUPT: u8 = 0x3C;
