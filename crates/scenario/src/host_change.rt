// Adds hosts to a plan, and groups, VLANs and sockets to a host.

ghost use Rattle.std.specs.Prelude.{◌≡◌, ◌∷◌, ◌++◌, [], OnOk};
ghost use Rattle.scenario.specs.Answers.{Gains, IsChange};
ghost use Rattle.scenario.specs.Meanings as meanings;
ghost use Rattle.scenario.specs.SoFar.{host_of_plan, hosts_of};
ghost use Rattle.scenario.specs.declared.host_change.Item.TheVariants.{Group, Socket, Vlan};

use crate::host_use::HostOptions;
use crate::refusal::Fault;
use crate::tick_word::host_named;
use arrayvec::ArrayVec;
use driver::Config;
use eeprom::Image;
use network_plan::HostPlan;
use packet_socket::SocketKind;
use std::alloc::{AllocError, Global};

/// An item of a host: a group, a VLAN or a socket.
#[derive(Clone, Copy)]
pub(crate) enum Item {
    /// The group with this address.
    Group([u8; 6]),
    /// The VLAN with this identifier.
    Vlan(u16),
    /// A socket for these frames.
    Socket(SocketKind),
}

/// Appends the host of a `host` line. The host has no groups and no sockets yet. It has no list of VLANs, so frames of
/// all VLANs pass its filter.
///
/// # Errors
///
/// Returns an error only if memory is refused. Then no host has been appended.
pub(crate) fn add_host(
    alloc: Global,
    hosts: &mut Vec<HostPlan>,
    name: &str,
    address: [u8; 6],
    wire: &str,
    options: HostOptions,
) -> Result<(), AllocError>
    ensures { OnOk result (hosts_of hosts.new.items
        ≡ hosts_of hosts.old.items ++ meanings.host_described name.now address wire.now options ∷ []) }
{
    // With room for the host, appending the host can't fail.
    hosts.reserve(1)?;
    let name = String::from_str(alloc, name)?;
    let wire = String::from_str(alloc, wire)?;
    hosts.push_reserved(HostPlan {
        name,
        wire,
        image: Image::with_address(address),
        link: options.link,
        config: Config {
            rx: options.rx,
            tx: options.tx,
            buffers: options.buffers,
            rxa: options.rxa,
            promiscuous: options.promiscuous,
            groups: ArrayVec::new(),
            vlans: None,
        },
        sockets: ArrayVec::new(),
    });
    Ok(())
}

/// Adds a group to a host. Fails with [`Name`](Fault::Name) if the host has no room for another group.
fn push_group(host: &mut HostPlan, group: [u8; 6]) -> Result<(), Fault>
    ensures { Gains (Group group) (host_of_plan host.old) result (host_of_plan host.new) }
{
    if host.config.groups.is_full() {
        return Err(Fault::Name);
    }
    host.config.groups.push(group);
    Ok(())
}

/// Adds a VLAN to a host. Fails with [`Name`](Fault::Name) if the host has no room for another VLAN.
fn push_vlan(host: &mut HostPlan, vlan: u16) -> Result<(), Fault>
    ensures { Gains (Vlan vlan) (host_of_plan host.old) result (host_of_plan host.new) }
{
    // The first VLAN of a host begins the host's list.
    let vlans = host.config.vlans.get_or_insert(ArrayVec::new());
    if vlans.is_full() {
        return Err(Fault::Name);
    }
    vlans.push(vlan);
    Ok(())
}

/// Adds a socket to a host. Fails with [`Name`](Fault::Name) if the host has no room for another socket.
fn push_socket(host: &mut HostPlan, kind: SocketKind) -> Result<(), Fault>
    ensures { Gains (Socket kind) (host_of_plan host.old) result (host_of_plan host.new) }
{
    if host.sockets.is_full() {
        return Err(Fault::Name);
    }
    host.sockets.push(kind);
    Ok(())
}

/// Adds an item to a host. Fails with [`Name`](Fault::Name) if the host has no room for the item; then the host doesn't
/// change.
fn push_item(host: &mut HostPlan, item: Item) -> Result<(), Fault>
    ensures { Gains item (host_of_plan host.old) result (host_of_plan host.new) }
{
    match item {
        Item::Group(group) => push_group(host, group),
        Item::Vlan(vlan) => push_vlan(host, vlan),
        Item::Socket(kind) => push_socket(host, kind),
    }
}

/// Adds an item to the first host with this name. Fails with [`Name`](Fault::Name) if there is no such host, or if the
/// host has no room for the item. Then no host changes.
#[tactic(auto, using(crate::proofs::Changes::no_room))]
pub(crate) fn add_item(hosts: &mut [HostPlan], name: &str, item: Item) -> Result<(), Fault>
    ensures { IsChange name.now (meanings.items_held item) (meanings.most_items item) (meanings.with_item item)
        (hosts_of hosts.old) result (hosts_of hosts.new) }
{
    let Some(place) = host_named(hosts, name) else {
        return Err(Fault::Name);
    };
    push_item(&mut hosts[place], item)
}
