// The plan of a network, and the check of a plan.

ghost use Rattle.std.specs.Prelude.{◌≡◌, ◌↔◌, IsTrue};
ghost use Rattle.network_plan.specs.Plans.{HasOwnAddress, HaveOwnAddresses, HasConfigs, HasEnds, HasName, HasNames};
ghost use Rattle.network_plan.specs.Plans.{HasOtherAddressOrIsSame, HasWire, IsName, IsPlanAnswer, hosts_named};
ghost use Rattle.network_plan.specs.Plans.{hosts_on};

use crate::plan_error::PlanError;
use arrayvec::ArrayVec;
use driver::Config;
use eeprom::Image;
use mdic_phy::Link;
use packet_socket::SocketKind;

/// The maximum number of bytes of a name (our choice).
pub const MOST_NAME_BYTES: usize = 16;

/// The maximum number of ends of a wire (our choice).
pub const MOST_ENDS: usize = 8;

/// The maximum number of hosts of a network (our choice).
pub const MOST_HOSTS: usize = 16;

/// The maximum number of sockets of a host (our choice).
pub const MOST_SOCKETS: usize = 8;

/// The plan of a host.
#[derive(Debug, Drop, PartialEq, Eq)]
pub struct HostPlan {
    /// The name of the host. In a valid plan the name has 1 to 16 bytes of `a-z 0-9 _ -`, and no other host has the
    /// same name.
    pub name: String,
    /// The name of the host's wire. In a valid plan this name has 1 to 16 bytes of `a-z 0-9 _ -`.
    pub wire: String,
    /// The EEPROM of the host's adapter. In a valid plan its address is an individual address, and no other host has
    /// the same address.
    pub image: Image,
    /// When the link is up: after a number of PHY ticks, or never. In a valid plan this number is at least 1.
    pub link: Link,
    /// The configuration with which the host's adapter is initialized.
    pub config: Config,
    /// The host's sockets. A frame goes to the first socket for its EtherType, else to the first socket for all frames.
    pub sockets: ArrayVec<SocketKind, MOST_SOCKETS>,
}

/// The plan of a network: its hosts, numbered from 0 in the order of the list. Hosts whose wires have the same name are
/// on one wire.
#[derive(Debug, Drop, PartialEq, Eq)]
pub struct Plan {
    /// The hosts.
    pub hosts: Vec<HostPlan>,
}

impl Plan {
    /// Checks whether this plan is valid. A network can be made by a valid plan if memory isn't refused and each host
    /// can be initialized.
    ///
    /// # Errors
    ///
    /// Returns the first of E40 [`Name`](PlanError::Name), E41 [`Ends`](PlanError::Ends), E42
    /// [`Hosts`](PlanError::Hosts), E43 [`Address`](PlanError::Address) and E44 [`Config`](PlanError::Config) that
    /// applies.
    pub fn check(&self) -> Result<(), PlanError>
        ensures { IsPlanAnswer self.now.hosts.items result }
    {
        let hosts = self.hosts.as_slice();
        if !have_names(hosts) {
            return Err(PlanError::Name);
        }
        if !have_ends(hosts) {
            return Err(PlanError::Ends);
        }
        if hosts.len() < 2 || hosts.len() > MOST_HOSTS {
            return Err(PlanError::Hosts);
        }
        if !have_own_addresses(hosts) {
            return Err(PlanError::Address);
        }
        if !have_configs(hosts) {
            return Err(PlanError::Config);
        }
        Ok(())
    }
}

/// Returns whether a byte may be in a name: a letter of `a-z`, a digit, `_` or `-`.
fn is_of_name(byte: u8) -> bool
    ensures { result ≡ Rattle.network_plan.specs.Plans.is_of_name byte }
{
    matches!(byte, b'a'..=b'z' | b'0'..=b'9' | b'_' | b'-')
}

/// Returns whether a text is a valid name: 1 to 16 bytes that may be in a name.
fn is_name(text: &str) -> bool
    ensures { IsTrue result ↔ IsName text.now }
{
    let bytes = text.as_bytes();
    !bytes.is_empty()
        && bytes.len() <= MOST_NAME_BYTES
        && bytes.iter().all(|byte| is_of_name(*byte))
}

/// Returns the number of hosts with this name.
fn count_named(hosts: &[HostPlan], name: &String) -> usize
    ensures { result ≡ hosts_named hosts.now name.now }
{
    hosts.iter().filter(|host| host.name == *name).count()
}

/// Returns the number of hosts on the wire with this name, which is the number of the wire's ends.
fn count_ends(hosts: &[HostPlan], wire: &String) -> usize
    ensures { result ≡ hosts_on hosts.now wire.now }
{
    hosts.iter().filter(|host| host.wire == *wire).count()
}

/// Returns whether a host's name and the name of its wire are valid, and no other host has the host's name.
fn has_name(hosts: &[HostPlan], host: &HostPlan) -> bool
    ensures { IsTrue result ↔ HasName hosts.now host.now }
{
    is_name(host.name.as_str())
        && is_name(host.wire.as_str())
        && count_named(hosts, &host.name) == 1
}

/// Returns whether all names are valid, and no two hosts have the same name.
fn have_names(hosts: &[HostPlan]) -> bool
    ensures { IsTrue result ↔ HasNames hosts.now }
{
    hosts.iter().all(|host| has_name(hosts, host))
}

/// Returns whether a host's wire has 2 to 8 ends.
fn has_wire(hosts: &[HostPlan], host: &HostPlan) -> bool
    ensures { IsTrue result ↔ HasWire hosts.now host.now }
{
    let ends = count_ends(hosts, &host.wire);
    2 <= ends && ends <= MOST_ENDS
}

/// Returns whether each wire has 2 to 8 ends.
fn have_ends(hosts: &[HostPlan]) -> bool
    ensures { IsTrue result ↔ HasEnds hosts.now }
{
    for host in hosts {
        if !has_wire(hosts, host) {
            return false;
        }
    }
    true
}

/// Returns whether two hosts have different addresses, or the same name. Names are unique, so hosts with the same name
/// are the same host: [`has_own_address`] compares a host also with itself.
fn has_other_address_or_is_same(host: &HostPlan, other: &HostPlan) -> bool
    ensures { IsTrue result ↔ HasOtherAddressOrIsSame host.now other.now }
{
    other.image.address() != host.image.address() || other.name == host.name
}

/// Returns whether a host's address is an individual address, and no host with another name has the same address. An
/// individual address has the low bit of its first byte clear (IEEE 802.3, 3.2.3).
fn has_own_address(hosts: &[HostPlan], host: &HostPlan) -> bool
    ensures { IsTrue result ↔ HasOwnAddress hosts.now host.now }
{
    host.image.address()[0] % 2 == 0
        && hosts
            .iter()
            .all(|other| has_other_address_or_is_same(host, other))
}

/// Returns whether each host's address is an individual address, and no host with another name has the same address.
fn have_own_addresses(hosts: &[HostPlan]) -> bool
    ensures { IsTrue result ↔ HaveOwnAddresses hosts.now }
{
    hosts.iter().all(|host| has_own_address(hosts, host))
}

/// Returns whether each host's configuration is valid in a memory of `u64::MAX` bytes, and each host's link needs at
/// least one PHY tick or is never up. A network allocates a memory of the size that the configuration needs, so the
/// check assumes the greatest size.
fn have_configs(hosts: &[HostPlan]) -> bool
    ensures { IsTrue result ↔ HasConfigs hosts.now }
{
    hosts.iter().all(|host| host.link != Link::After(0) && host.config.layout(u64::MAX).is_ok())
}
