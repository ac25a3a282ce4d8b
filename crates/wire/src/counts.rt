// The counts of a host.

ghost use Rattle.std.specs.Prelude.{◌≤◌, ◌↔◌, IfSome, IsNone, length};
ghost use Rattle.packet_socket.specs.HostState.{HostState};
ghost use Rattle.stations.specs.Stations.{world_at};
ghost use Rattle.wire.specs.Counting.{AreCounts};
ghost use Rattle.host_calls.specs.Networks.{IsHost};
ghost use Rattle.wire.specs.Equations.{NetworkStands};

use crate::Lan;

/// The counts of a host.
#[derive(Clone, Copy, Debug, PartialEq, Eq)]
pub struct Counts {
    /// The number of frames that the adapter missed because the receive packet buffer had no room. This number is the
    /// sum of the values that the driver read from MPC, plus MPC, up to the greatest `u64`.
    pub missed: u64,
    /// Whether `missed` is exact; if not, there may have been more missed frames. A value of `missed` below 0xFFFF_FFFF
    /// is always exact.
    pub exact: bool,
    /// RNBC: the number of frames that were stored or missed while RDH was equal to RDT, since the adapter's last
    /// reset.
    pub without_descriptor: u32,
    /// GPRC: the number of received frames whose last descriptor was written back, since the adapter's last reset.
    pub received: u32,
    /// GPTC: the number of frames that were put onto the wire, since the adapter's last reset. RNBC, GPRC and GPTC
    /// saturate at 0xFFFF_FFFF.
    pub transmitted: u32,
    /// The number of received frames that went to no socket; it saturates at the greatest `u64`.
    pub unclaimed: u64,
}

impl Lan {
    /// Returns the counts of a host, or `None` if there is no such host. No count is cleared.
    ///
    /// - `stands`: the invariant of `Lan`, for the proofs of callers.
    pub fn counts(&self, host: usize) -> Option<Counts>
        ensures none { IsNone result ↔ (length self.now.hosts ≤ host) }
        ensures counts { (state : HostState) → IsHost self.now host state
            → IfSome result (AreCounts state (world_at self.now.stations host)) }
        ensures stands { NetworkStands self.now }
    {
        let found = self.network.host(host)?;
        let (sum, read_exactly) = found.missed();
        let registers = self.network.stations().counts(host);
        // `None` if the sum is greater than a `u64`.
        let missed = sum.checked_add(u64::from(registers.missed));
        Some(Counts {
            missed: missed.unwrap_or(u64::MAX),
            // MPC saturates at `u32::MAX`, so at this value MPC may be too small.
            exact: read_exactly && registers.missed < u32::MAX && missed.is_some(),
            without_descriptor: registers.without_descriptor,
            received: registers.received,
            transmitted: registers.transmitted,
            unclaimed: found.unclaimed(),
        })
    }
}
