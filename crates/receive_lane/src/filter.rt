// Which frames pass.

/// The filter of [`pass`](crate::pass). By default, each field is `None`.
#[derive(Clone, Copy, Default)]
pub struct PassFilter {
    /// The adapter's own address, the first byte first.
    pub address: Option<[u8; 6]>,
    /// A group address, the first byte first.
    pub group: Option<[u8; 6]>,
    /// A VLAN identifier, at most 4095.
    pub vlan: Option<u16>,
}
