//! The reasons why no network was made by a plan.
ghost use Rattle.std.specs.Prelude.{◌≡◌};
ghost use Rattle.network_plan.specs.Statuses.{plan_status};

use driver::InitError;
use thiserror::Error;

/// Why no network was made by a plan. The first of `Name`, `Ends`, `Hosts`, `Address` and `Config` that applies is
/// returned. `Memory` and `Init` are returned only for a valid plan.
//
// `tools/pages --tables` makes rows of the help texts and of docs/ERRORS.md from the messages and from the first
// paragraphs of the comments.
#[derive(Clone, Copy, Debug, PartialEq, Eq, Error)]
pub enum PlanError {
    /// The name of a host or a wire isn't 1 to 16 of a-z 0-9 _ -. Choose another
    ///
    /// Also returned if two hosts have the same name.
    #[error("E40 Name")]
    Name,
    /// A wire has only 1 host, or more than 8. Check the names of wires, or add a host
    #[error("E41 Ends")]
    Ends,
    /// There is no host, or there are more than 16. Add hosts, or split the scenario
    ///
    /// The least number of hosts is 2, but a plan with one host gets `Ends`.
    #[error("E42 Hosts")]
    Hosts,
    /// An address is multicast (its first byte is odd) or another host's. Choose another
    #[error("E43 Address")]
    Address,
    /// An option of a host is invalid. rx and tx are multiples of 8 from 8 to 4096, buffers from rx to 8192, rxa even
    /// from 2 to 48, link at least 1; the first byte of a group is odd, and a VLAN is at most 4095
    #[error("E44 Config")]
    Config,
    /// Out of memory for the hosts. Free some, or use fewer buffers
    #[error("E45 Memory")]
    Memory,
    /// An adapter could not be initialized; the reason follows, such as E14 NoLink: its link is never up, or only after
    /// more than 2000 ticks. Use a smaller link
    ///
    /// The number is that of the adapter's host.
    #[error("E46 Init: {1}")]
    Init(usize, InitError),
}

impl PlanError {
    /// Returns the exit status of a program that this error ends: 4 if memory was refused, and 1 otherwise.
    pub fn status(&self) -> u8
        ensures { result ≡ plan_status self.now }
    {
        match self {
            PlanError::Memory => 4,
            PlanError::Name
            | PlanError::Ends
            | PlanError::Hosts
            | PlanError::Address
            | PlanError::Config
            | PlanError::Init(_, _) => 1,
        }
    }
}
