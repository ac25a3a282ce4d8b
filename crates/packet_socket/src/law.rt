// Laws of the intervals of a host's run.

ghost use Rattle.std.specs.Prelude.{Bool};
ghost use Rattle.adapter.specs.World.{World};
ghost use Rattle.adapter.specs.Law.{Happens};
ghost use Rattle.adapter.specs.Pasts.{Past, joined};
ghost use Rattle.packet_socket.specs.HostCalls.{HostDid, HostFlowsTo, HostGoesTo, HostInWorld, HostReadyWith, did_both};
ghost use Rattle.packet_socket.specs.HostCalls.{did_nothing, in_world};
ghost use Rattle.packet_socket.specs.HostState.{HostState};

/// A host that is ready remains ready between two calls, whatever steps and deliveries happen. These steps and
/// deliveries form an interval of the host's run in which no frame is taken, returned or accepted for sending.
pub fn hosts_go_on()
    ensures { (up : Bool) (h : HostState) (a b : World) (past : Past)
        → HostReadyWith up h a → Happens a b past → HostGoesTo up (in_world h a) (in_world h b) did_nothing past }
{}

/// Two consecutive intervals of a host's run form one interval, with the frames of both in order. At the end of each
/// interval, the transmit side may be set up or off.
/// - `flows`: any register may be read in the intervals.
/// - `goes`: no recorded cause is cleared in the intervals.
pub fn host_intervals_join()
    ensures flows { (first_up up : Bool) (h1 h2 h3 : HostInWorld) (one two : HostDid) (first later : Past)
        → HostFlowsTo first_up h1 h2 one first → HostFlowsTo up h2 h3 two later
        → HostFlowsTo up h1 h3 (did_both one two) (joined first later) }
    ensures goes { (first_up up : Bool) (h1 h2 h3 : HostInWorld) (one two : HostDid) (first later : Past)
        → HostGoesTo first_up h1 h2 one first → HostGoesTo up h2 h3 two later
        → HostGoesTo up h1 h3 (did_both one two) (joined first later) }
{}
