//! The events of a scenario's commands.
ghost use Rattle.std.specs.Prelude.{◌≡◌, ◌<◌, ◌++◌, ◌∷◌, [], None, OnOk, length, map};
ghost use Rattle.eeprom.specs.Image.{address_bytes};
ghost use Rattle.scenario.specs.SoFar.{Receives, Ticks, command_of_event, hosts_of};
ghost use Rattle.scenario_bench.specs.EventLists as lists;
ghost use Rattle.scenario_bench.specs.PlayedEvents.{AreOfSender};
ghost use Rattle.stations.specs.declared.tick.Tick.TheVariants as ticks;

use adapter::StepKind;
use descriptors::{LONGEST_LEGAL, SHORTEST_LEGAL};
use dma_memory::RECEIVE_BUFFER_BYTES;
use eeprom::Image;
use run_record::wire_of;
use std::alloc::{AllocError, Global};
use wire::{Event, HostPlan, Tick};

/// The number of bytes of a broadcast frame without data: two addresses and the EtherType (IEEE 802.3, 3.1.1).
const HEADER: usize = 14;

/// Returns the event in which a host asks a socket for a frame, without ticks.
fn recv_event(host: usize, socket: usize) -> Event<'static>
    ensures { command_of_event result ≡ Receives host socket [] }
{
    Event::Recv {
        host,
        socket,
        ticks: &[],
    }
}

/// Returns the event in which a host's adapter takes a step outside calls.
fn step_event(host: usize, kind: StepKind) -> Event<'static>
    ensures { command_of_event result ≡ Ticks (ticks.Step host kind) }
{
    Event::Tick(Tick::Step(host, kind))
}

/// Returns the number of receive buffers that a frame of this size needs after padding. If the frame is too short or
/// too long for `send` (E20, E21), no such frame arrives, and the result is 1 (our choice).
pub(crate) fn pieces_of(size: usize) -> usize
    ensures { result ≡ lists.pieces_for size }
{
    if size > LONGEST_LEGAL {
        return 1;
    }
    size.max(SHORTEST_LEGAL)
        .div_ceil(RECEIVE_BUFFER_BYTES as usize)
}

/// Appends these events, in order.
fn push_events<'a>(events: &mut Vec<Event<'a>>, more: &[Event<'a>]) -> Result<(), AllocError>
    ensures { OnOk result (map command_of_event events.new.items
        ≡ map command_of_event events.old.items ++ map command_of_event more.now) }
{
    events.extend_from_slice(more)
}

/// Appends the steps that move this number of pieces of a frame to a host's memory: RxData and RxDone for each piece.
fn push_moves(host: usize, pieces: usize, events: &mut Vec<Event<'_>>) -> Result<(), AllocError>
    ensures { OnOk result
        (map command_of_event events.new.items ≡
        map command_of_event events.old.items ++ lists.moves_of_pieces host pieces) }
{
    for _piece in 0..pieces {
        let data = step_event(host, StepKind::RxData);
        let done = step_event(host, StepKind::RxDone);
        push_events(events, &[data, done])?;
    }
    Ok(())
}

/// Appends the events by which a frame arrives at a host: its delivery, and its moves to memory in this number of
/// pieces. Then appends an interrupt, and a recv from each of the host's sockets, in order.
fn push_arrival(
    pieces: usize,
    host: usize,
    sockets: usize,
    events: &mut Vec<Event<'_>>,
) -> Result<(), AllocError>
    ensures { OnOk result
        (map command_of_event events.new.items ≡
        map command_of_event events.old.items ++ lists.arrival_at pieces host sockets) }
{
    push_events(events, &[Event::Tick(Tick::Deliver(host))])?;
    push_moves(host, pieces, events)?;
    push_events(events, &[Event::Interrupt { host, ticks: &[] }])?;
    for socket in 0..sockets {
        push_events(events, &[recv_event(host, socket)])?;
    }
    Ok(())
}

/// Replaces the events by those after the send of a fed frame. The frame is put on the sender's wire, and arrives at
/// each other host on this wire in this number of pieces. If memory is refused, the list may contain some of the
/// events.
fn set_events_after_send(
    plans: &[HostPlan],
    sender: usize,
    pieces: usize,
    events: &mut Vec<Event<'_>>,
) -> Result<(), AllocError>
    ensures { OnOk result
        (map command_of_event events.new.items ≡ lists.events_after_send (hosts_of plans.now) sender pieces) }
{
    events.clear();
    let take = step_event(sender, StepKind::TxTake);
    let put = step_event(sender, StepKind::TxPut);
    push_events(events, &[take, put])?;
    let wire = wire_of(plans, sender);
    for (number, plan) in plans.iter().enumerate() {
        if number != sender && plan.wire.as_str() == wire {
            push_arrival(pieces, number, plan.sockets.len(), events)?;
        }
    }
    Ok(())
}

/// The events after the send of a fed frame from one host. The list is made again only if the next frame arrives in a
/// different number of pieces, or if memory was refused for the list.
#[derive(Drop)]
pub(crate) struct EventsAfterSend {
    /// The number of pieces for which `list` is made; `None` if `list` isn't made.
    pieces: Option<usize>,
    pub(crate) list: Vec<Event<'static>>,
}

impl EventsAfterSend {
    /// Returns the value before the first list is made.
    pub(crate) fn new(alloc: Global) -> EventsAfterSend
        ensures { result.pieces ≡ None }
    {
        EventsAfterSend {
            pieces: None,
            list: Vec::new(alloc),
        }
    }

    /// Makes the list of the events after the send of a frame that arrives in this number of pieces, unless `list` is
    /// this list already. An earlier list must have been made for these plans and this sender. If memory is refused,
    /// `list` counts as not made.
    pub(crate) fn make(
        &mut self,
        plans: &[HostPlan],
        sender: usize,
        pieces: usize,
    ) -> Result<(), AllocError>
        requires before { AreOfSender (hosts_of plans.now) sender self.old }
        ensures events { OnOk result
            (map command_of_event self.new.list.items ≡ lists.events_after_send (hosts_of plans.now) sender pieces) }
        ensures kept { AreOfSender (hosts_of plans.now) sender self.new }
    {
        if let Some(made) = self.pieces
            && made == pieces
        {
            return Ok(());
        }
        // If memory is refused in the next call, `list` is incomplete.
        self.pieces = None;
        set_events_after_send(plans, sender, pieces, &mut self.list)?;
        self.pieces = Some(pieces);
        Ok(())
    }
}

/// Returns a broadcast frame from this EEPROM's address, without data, with the EtherType for experiments (IEEE 802).
fn broadcast_of(image: &Image) -> [u8; HEADER]
    ensures { result ≡ lists.broadcast_of (address_bytes image.now) }
{
    let [a0, a1, a2, a3, a4, a5] = image.address();
    [
        0xFF, 0xFF, 0xFF, 0xFF, 0xFF, 0xFF, a0, a1, a2, a3, a4, a5, 0x88, 0xB5,
    ]
}

/// What a random word draws: an event of one of the eight kinds, at a host. The frame of a send and the ticks of an
/// interrupt are lent to the event.
#[derive(Drop)]
pub(crate) struct Drawn {
    /// The kind of the event, from 0 to 7, as in `event`.
    kind: u32,
    /// The number of the host.
    host: usize,
    /// The frame of a send.
    frame: [u8; HEADER],
    /// The ticks of an interrupt. The steps RxData and RxDone of the host's adapter are played after the handler's
    /// first access and before its second.
    ticks: [Tick; 3],
}

impl Drawn {
    /// Returns what a random word draws. The word's low three bits choose the kind. The other bits, modulo the number
    /// of hosts, choose the host. There must be at least one host. The frame and the ticks are made for each kind.
    pub(crate) fn new(plans: &[HostPlan], word: u32) -> Drawn
        requires { 0 < length plans.now }
        ensures { lists.event_of_kind result.kind result.host result.frame result.ticks
            ≡ lists.event_drawn (hosts_of plans.now) word }
    {
        let host = (word / 8) as usize % plans.len();
        Drawn {
            kind: word % 8,
            host,
            frame: broadcast_of(&plans[host].image),
            ticks: [
                Tick::Go,
                Tick::Step(host, StepKind::RxData),
                Tick::Step(host, StepKind::RxDone),
            ],
        }
    }

    /// Returns the event that was drawn. Each kind from 7 on is a send (`new` draws kinds from 0 to 7).
    pub(crate) fn event(&self) -> Event<'_>
        ensures { command_of_event result
            ≡ lists.event_of_kind self.now.kind self.now.host self.now.frame self.now.ticks }
    {
        let host = self.host;
        match self.kind {
            0 => step_event(host, StepKind::TxTake),
            1 => step_event(host, StepKind::TxPut),
            2 => step_event(host, StepKind::RxData),
            3 => step_event(host, StepKind::RxDone),
            4 => Event::Tick(Tick::Deliver(host)),
            5 => Event::Interrupt {
                host,
                ticks: &self.ticks,
            },
            6 => recv_event(host, 0),
            _ => Event::Send {
                host,
                frame: &self.frame,
                ticks: &[],
            },
        }
    }
}
