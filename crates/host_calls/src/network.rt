// Networks: hosts on wires, and ticks that are played outside calls.

ghost use Rattle.std.specs.Prelude.{◌≡◌, ◌≤◌, ◌<◌, ◌↔◌, ◌++◌, ◌∷◌, [], length, vec_capacity};
ghost use Rattle.std.specs.Prelude.{IfOk, IfSome, IsNone, OnErr};
ghost use Rattle.adapter.specs.TickGroups.{without_go};
ghost use Rattle.stations.specs.AtomicRuns.{is_go};
ghost use Rattle.stations.specs.AtomicSteps.{PlaysNoted, watched};
ghost use Rattle.stations.specs.PlayedTicks.{PlaysTicks};
ghost use Rattle.host_calls.specs.Networks.{nth_host, NetworkState};
ghost use Rattle.host_calls.specs.NetworkView.{HasStations, network_in};

use adapter::Machine;
use packet_socket::Host;
use stations::{Observer, Stations, Tick};
use std::alloc::{AllocError, Global};
use std::marker::Model;

/// Hosts on wires. Each host is a driver with its sockets, and has a station: its machine, and its end of a wire. Hosts
/// are numbered from 0, in the order in which they were connected.
///
/// In contracts, the value is a `NetworkState` (`specs/Networks.antt`).
#[derive(Drop)]
pub struct Network {
    /// The hosts, by their numbers.
    pub(crate) hosts: Vec<Host>,
    /// The station of each host, by the host's number.
    pub(crate) stations: Stations,
}

impl Model for Network {
    ghost Value = { NetworkState };

    ghost view = { network_in };

    ghost invariant = { HasStations };
}

/// Makes room for one more host, and appends a station with this machine on this wire.
///
/// # Errors
///
/// Returns an error only if an allocation fails. Then no host and no station has been added.
fn connect_station(
    hosts: &mut Vec<Host>,
    stations: &mut Stations,
    alloc: Global,
    machine: Machine,
    wire: usize,
) -> Result<(), AllocError>
    ensures room { IfOk result (λ done. length hosts.new.items < vec_capacity hosts.new) }
    ensures hosts { hosts.new.items ≡ hosts.old.items }
    ensures connected { IfOk result (λ done. stations.new ≡ stations.old ++ record {
      world = machine.world;
      wire = wire;
      backlog = [];
    } ∷ []) }
    ensures err { OnErr result (stations.new ≡ stations.old) }
{
    hosts.reserve(1)?;
    stations.connect(alloc, machine, wire)
}

/// Appends a host to a list that has room for it.
fn append(hosts: &mut Vec<Host>, host: Host)
    requires room { length hosts.old.items < vec_capacity hosts.old }
    ensures { hosts.new.items ≡ hosts.old.items ++ host ∷ [] }
{
    // There is room, so `push` returns no error.
    let _ = hosts.push(host);
}

impl Network {
    /// Returns a network without hosts.
    pub fn new(alloc: Global) -> Network
        ensures { result ≡ record {
          hosts = [];
          stations = [];
        } }
    {
        Network {
            hosts: Vec::new(alloc),
            stations: Stations::new(alloc),
        }
    }

    /// Appends a host with its machine, on this wire. No frame waits at the host's end of the wire.
    ///
    /// # Errors
    ///
    /// Returns an error only if an allocation fails. Then the network hasn't changed.
    pub fn connect(
        &mut self,
        alloc: Global,
        host: Host,
        machine: Machine,
        wire: usize,
    ) -> Result<(), AllocError>
        ensures connected { IfOk result (λ done. self.new ≡ record {
          hosts = self.old.hosts ++ host ∷ [];
          stations = self.old.stations ++ record {
            world = machine.world;
            wire = wire;
            backlog = [];
          } ∷ [];
        }) }
        ensures err { OnErr result (self.new ≡ self.old) }
    {
        connect_station(&mut self.hosts, &mut self.stations, alloc, machine, wire)?;
        append(&mut self.hosts, host);
        Ok(())
    }

    /// Returns the number of hosts.
    pub fn len(&self) -> usize
        ensures { result ≡ length self.now.hosts }
    {
        self.hosts.len()
    }

    /// Returns the host with this number; `None` if there is no such host.
    pub fn host(&self, number: usize) -> Option<&Host>
        ensures none { IsNone result ↔ (length self.now.hosts ≤ number) }
        ensures some { IfSome result (λ host. host.now ≡ nth_host self.now number) }
    {
        self.hosts.get(number)
    }

    /// Returns the stations of all hosts.
    pub fn stations(&self) -> &Stations
        ensures { result.now ≡ self.now.stations }
    {
        &self.stations
    }

    /// Plays a tick outside a call. The observer is told the tick's outcome, with `accesses` as the number of accesses
    /// before the tick. The observer must have room for this outcome. No driver or socket changes.
    #[inline(always)]
    pub fn play<O: Observer>(&mut self, tick: Tick, accesses: u64, observer: &mut O)
        requires room { 0 < O.room_left observer.old }
        ensures plays { PlaysNoted O.Observer tick accesses (watched self.old.stations observer.old)
            (watched self.new.stations observer.new) }
        ensures hosts { self.new.hosts ≡ self.old.hosts }
    {
        self.stations.play(tick, accesses, observer);
    }

    /// Plays all ticks except each `Go`, in order, such as the ticks of a call whose host doesn't exist. The observer
    /// is told each outcome, with `accesses` as the number of the call's accesses before the tick. The observer must
    /// have room for one outcome for each tick, including each `Go`. No driver or socket changes.
    pub fn play_without_go<O: Observer>(&mut self, ticks: &[Tick], accesses: u64, observer: &mut O)
        requires room { length ticks.now ≤ O.room_left observer.old }
        ensures plays { PlaysTicks O.Observer (without_go is_go ticks.now) accesses
            (watched self.old.stations observer.old) (watched self.new.stations observer.new) }
        ensures hosts { self.new.hosts ≡ self.old.hosts }
    {
        self.stations.play_without_go(ticks, accesses, observer);
    }
}
