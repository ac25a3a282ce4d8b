// Draining a host of a network, step by step.

ghost use Rattle.std.specs.Prelude.{◌≡◌, ◌≢◌, ◌≤◌, ◌<◌, ◌+◌, [], None, IfNone, IfSome, false, length, ℕ};
ghost use Rattle.registers.specs.Bits.{Meet};
ghost use Rattle.adapter.specs.State.{IsAdapter};
ghost use Rattle.packet_socket.specs.HostState.{all_of, queue_at};
ghost use Rattle.stations.specs.Stations.{world_at};
ghost use Rattle.host_calls.specs.DrainedHosts.{CanBeDrained, DrainsInto, HoldsNothing, count_frames};
ghost use Rattle.host_calls.specs.Networks.{OnlyHostChanges, connected_at, nth_host};
ghost use Rattle.host_calls.specs.DrainSteps.{StepsInto, StepsOn, outlet, steps_of};

use crate::Outlet;
use crate::network::Network;
use adapter::{Outcome, StepKind};
use descriptors::Frame;
use packet_socket::{Host, HostAnswer, HostCall};
use rx_engine::MOST_FRAMES;
use stations::Nobody;

/// Returns the index of the first socket for which a frame waits, if there is such a socket.
fn first_waiting(host: &Host) -> Option<usize>
    ensures none { IfNone result (all_of host.now.queues ≡ []) }
    ensures some { IfSome result (λ socket. (socket < length host.now.kinds) × (queue_at host.now.queues socket ≢ [])) }
    ensures first { IfSome result (λ socket. (k : ℕ) → k < socket → queue_at host.now.queues k ≡ []) }
{
    for socket in 0..host.socket_count() {
        if host.waiting(socket) > 0 {
            return Some(socket);
        }
    }
    None
}

impl Network {
    /// Drains a host: passes each frame that the host holds for its sockets to `sink`, and returns the number of steps.
    /// No tick is played in the calls of the host. The host must be ready with no forgotten work. Its receive ring must
    /// be refilled, no slot may be staged, and RCTL.EN must be set (`CanBeDrained`). For a host with N receive buffers,
    /// `sink` must have room for at least N + [`MOST_FRAMES`] (614) frames. Each frame uses at most one place of this
    /// room (`left`).
    ///
    /// Each step is the first of these that applies. If a piece of a frame is in progress, the host's adapter writes
    /// back the descriptor of the piece. If the interrupt line is asserted, the host handles an interrupt. If a frame
    /// is queued for a socket, the first such socket returns its oldest frame. If the receive packet buffer contains a
    /// frame, the adapter moves the next piece of the oldest frame to memory.
    pub fn drain<S: Outlet>(&mut self, number: usize, sink: &mut S) -> u64
        requires there { number < length self.old.hosts }
        requires stands { CanBeDrained (nth_host self.old number) (world_at self.old.stations number) }
        requires room { (nth_host self.old number).driver.layout.buffers + MOST_FRAMES ≤ S.room_left sink.old }
        ensures drains { DrainsInto result number (S.frames sink.old) (S.frames sink.new)
            (connected_at self.old number) (connected_at self.new number) }
        ensures left { length (S.frames sink.old) + S.room_left sink.old
            ≤ length (S.frames sink.new) + S.room_left sink.new }
        ensures others { OnlyHostChanges number self.old self.new }
    {
        let mut bytes = [0; 1518];
        let mut steps = 0;
        while self.step(number, &mut bytes, sink) {
            steps += 1;
        }
        steps
    }

    /// Takes the next step of a drain: of the four kinds of step in the body, the first that applies. Returns `false`
    /// if no step applies: then the host holds no frame for its sockets. A frame that a socket returns is first copied
    /// to `bytes`, and then passed to `sink`. The sink must have room for all frames that the host holds. A proof of
    /// this (`room`) may assume the invariant of the host's adapter. `adapter` states this invariant for callers.
    ///
    /// Only this host and its station change, and no end of a wire changes.
    fn step<S: Outlet>(&mut self, number: usize, bytes: &mut [u8; 1518], sink: &mut S) -> bool
        requires there { number < length self.old.hosts }
        requires stands { CanBeDrained (nth_host self.old number) (world_at self.old.stations number) }
        requires room { IsAdapter (world_at self.old.stations number).adapter
            → count_frames (nth_host self.old number) (world_at self.old.stations number) ≤ S.room_left sink.old }
        ensures adapter { IsAdapter (world_at self.old.stations number).adapter }
        ensures steps { StepsInto (steps_of result) number (outlet (S.frames sink.old) (S.room_left sink.old))
            (outlet (S.frames sink.new) (S.room_left sink.new))
            (connected_at self.old number) (connected_at self.new number) }
        ensures ends { result ≡ false → HoldsNothing (nth_host self.new number) (world_at self.new.stations number) }
        ensures others { OnlyHostChanges number self.old self.new }
    {
        if self.finish(number) {
            return true;
        }
        if self.stations.line(number) {
            self.handle(number, bytes);
            return true;
        }
        if let Some(socket) = first_waiting(&self.hosts[number]) {
            self.give(number, socket, bytes, sink);
            return true;
        }
        self.move_piece(number)
    }

    /// Takes the first kind of step: the adapter writes back the descriptor of the piece in progress. Returns `false`
    /// if no piece was in progress before the call. After the call, no piece is in progress (`free`).
    /// - `adapter`: the invariant of the host's adapter before the call, for the proofs of callers.
    fn finish(&mut self, number: usize) -> bool
        requires there { number < length self.old.hosts }
        requires stands { CanBeDrained (nth_host self.old number) (world_at self.old.stations number) }
        ensures adapter { IsAdapter (world_at self.old.stations number).adapter }
        ensures steps { StepsOn (steps_of result) number [] (connected_at self.old number)
            (connected_at self.new number) }
        ensures free { (world_at self.new.stations number).adapter.receiver.work ≡ None }
        ensures hosts { self.new.hosts ≡ self.old.hosts }
    {
        // The host can be drained, so the outcome is no fault: it is `Done`, or `Nothing` if no piece is in progress.
        matches!(self.stations.step(number, StepKind::RxDone), Outcome::Done)
    }

    /// Takes the second kind of step: the host handles an interrupt, without ticks. The interrupt line must be asserted
    /// (`asserted`), and no piece may be in progress (`free`). `bytes` doesn't change, because an interrupt returns no
    /// frame. Only this host and its station change, and no end of a wire changes.
    fn handle(&mut self, number: usize, bytes: &mut [u8; 1518])
        requires there { number < length self.old.hosts }
        requires stands { CanBeDrained (nth_host self.old number) (world_at self.old.stations number) }
        requires free { (world_at self.old.stations number).adapter.receiver.work ≡ None }
        requires asserted { Meet (world_at self.old.stations number).adapter.causes.recorded
            (world_at self.old.stations number).adapter.causes.mask }
        ensures steps { StepsOn 1 number [] (connected_at self.old number) (connected_at self.new number) }
        ensures others { OnlyHostChanges number self.old self.new }
    {
        // The call has no ticks and no observer, and its answer isn't needed.
        self.call(number, HostCall::Interrupt, &[], &mut Nobody, bytes);
    }

    /// Takes the third kind of step: a socket returns its oldest frame, without ticks, and the frame is passed to the
    /// sink. The frame is first copied to `bytes`. The socket must exist (`known`), and a frame must be queued for it
    /// (`waits`). No piece may be in progress (`free`), and the sink must have room for the frame.
    fn give<S: Outlet>(
        &mut self,
        number: usize,
        socket: usize,
        bytes: &mut [u8; 1518],
        sink: &mut S,
    )
        requires there { number < length self.old.hosts }
        requires stands { CanBeDrained (nth_host self.old number) (world_at self.old.stations number) }
        requires free { (world_at self.old.stations number).adapter.receiver.work ≡ None }
        requires known { socket < length (nth_host self.old number).kinds }
        requires waits { queue_at (nth_host self.old number).queues socket ≢ [] }
        requires room { 0 < S.room_left sink.old }
        ensures steps { StepsInto 1 number (outlet (S.frames sink.old) (S.room_left sink.old))
            (outlet (S.frames sink.new) (S.room_left sink.new))
            (connected_at self.old number) (connected_at self.new number) }
        ensures others { OnlyHostChanges number self.old self.new }
    {
        let called = self.call(number, HostCall::Recv(socket), &[], &mut Nobody, bytes);
        // The socket's queue wasn't empty, so both conditions are true.
        if let HostAnswer::Received(received) = called.answer {
            if let Ok(size) = received {
                sink.take(socket, &Frame::from_slice(&bytes[..size]));
            }
        }
    }

    /// Takes the last kind of step: the adapter moves the next piece of the oldest frame in the receive packet buffer
    /// to memory. Returns `false` if this buffer is empty: then the host holds no frame for its sockets. No other kind
    /// of step may apply: no piece is in progress (`free`), the interrupt line isn't asserted (`quiet`), and no frame
    /// is queued (`given`).
    fn move_piece(&mut self, number: usize) -> bool
        requires there { number < length self.old.hosts }
        requires stands { CanBeDrained (nth_host self.old number) (world_at self.old.stations number) }
        requires free { (world_at self.old.stations number).adapter.receiver.work ≡ None }
        requires quiet { ¬ (Meet (world_at self.old.stations number).adapter.causes.recorded
            (world_at self.old.stations number).adapter.causes.mask) }
        requires given { all_of (nth_host self.old number).queues ≡ [] }
        ensures steps { StepsOn (steps_of result) number [] (connected_at self.old number)
            (connected_at self.new number) }
        ensures ends { result ≡ false → HoldsNothing (nth_host self.new number) (world_at self.new.stations number) }
        ensures hosts { self.new.hosts ≡ self.old.hosts }
    {
        // The receive side is enabled and a slot is offered. So the outcome is `Part` or `Moved`, or `Nothing` if the
        // buffer is empty.
        matches!(
            self.stations.step(number, StepKind::RxData),
            Outcome::Part | Outcome::Moved
        )
    }
}
