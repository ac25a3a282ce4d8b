// Calls of the hosts of a network, during which ticks are played.

ghost use Rattle.std.specs.Prelude.{◌≤◌, ◌<◌, length};
ghost use Rattle.stations.specs.Stations.{world_at};
ghost use Rattle.packet_socket.specs.CallEffects.{IsLegalAnswer, KeepsRest, answer_in, call_request};
ghost use Rattle.packet_socket.specs.HostCalls.{HostReady};
ghost use Rattle.host_calls.specs.ConnectedHosts.{played_call};
ghost use Rattle.host_calls.specs.CallsInSteps.{MakesCall};
ghost use Rattle.host_calls.specs.Networks.{OnlyHostChanges, connected_at, nth_host};

use crate::network::Network;
use packet_socket::{HostAnswer, HostCall};
use stations::{LentBus, Observer, Tick};

/// The answer of a call, and the number of its accesses.
#[derive(Debug, Drop)]
pub struct Called {
    /// The answer. If a socket returned a frame, the answer contains the frame's size in bytes.
    pub answer: HostAnswer<usize>,
    /// The number of accesses of the call; it saturates at the greatest `u64`.
    pub accesses: u64,
}

impl Network {
    /// Makes a call of host `number`, while ticks are played on all stations. The host must exist and be ready. The
    /// observer must have room for the outcome of each tick, including each `Go`.
    ///
    /// A frame that a socket returns is copied to the front of `into`, and has 60 to 1,518 bytes (`legal`). The bytes
    /// of `into` after the frame don't change; if no frame is returned, no byte changes (`rest`). The answer determines
    /// what the call did to the host, and which accesses it made (`EffectOf`, in `MakesCall`). No driver or socket of
    /// another host changes; ticks may change all stations.
    #[inline(always)]
    pub fn call<O: Observer>(
        &mut self,
        number: usize,
        call: HostCall,
        ticks: &[Tick],
        observer: &mut O,
        into: &mut [u8; 1518],
    ) -> Called
        requires there { number < length self.old.hosts }
        requires ready { HostReady (nth_host self.old number) (world_at self.old.stations number) }
        requires room { length ticks.now ≤ O.room_left observer.old }
        ensures does { MakesCall
            (played_call number ticks.now (O.heard observer.old observer.new) result.accesses)
            (call_request call.entry) (answer_in into.new result.answer)
            (connected_at self.old number) (connected_at self.new number) }
        ensures legal { IsLegalAnswer result.answer }
        ensures rest { KeepsRest result.answer into.old into.new }
        ensures others { OnlyHostChanges number self.old self.new }
    {
        let mut bus = LentBus {
            stations: &mut self.stations,
            ticks,
            host: number,
            accesses: 0,
            observer,
        };
        let answer = self.hosts[number].call(&mut bus, call, into);
        // Plays the ticks that remain after the last access.
        bus.finish();
        Called {
            answer,
            accesses: bus.accesses,
        }
    }
}
