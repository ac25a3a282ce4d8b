//! Calls of a host over a bus with one adapter, and what each answers.

use crate::host::Solo;
use crate::said::check_rows;
use std::test::Fail;

/// Rows of hosts.
const ROWS: &str = "\
# A transmit ring of 8 descriptors has room for 7 frames. A slot is free after its frame is put on the wire.
all | | 8*send:0800 take send:0800 put send:0800 | ok ok ok ok ok ok ok E22 RingFull took E22 RingFull put ok
# A frame is taken after its descriptor is written back, also during the handler.
all | 2*arrive:0800 | data interrupt done data interrupt done interrupt | moved not mine done moved taken 1 done taken 1
all | 2*arrive:0800 | data done late interrupt interrupt interrupt | moved done late taken 2 taken 0 not mine
# A frame is missed if the receive packet buffer has no room.
small | | 3*longest:0800 interrupt missed | stored missed missed taken 0 2 true
small | 24*arrive:0800 | 2*arrive:0800 | stored missed
small | longest:0800 5*arrive:0800 | 2*arrive:0800 | stored missed
# A frame for which no descriptor is offered waits, and isn't missed.
all | 7*arrived:0800 | RDH arrive:0800 RNBC MPC data interrupt RDT | 7 stored 1 0 nothing taken 7 6
all | 7*arrived:0800 arrive:0800 interrupt | data done interrupt | moved done taken 1
# The first socket of a type takes frames of this type, and the socket for all frames takes others.
three | arrived:0806 arrived:0800 arrived:0806 | interrupt waiting:0 waiting:1 waiting:2 waiting:3 | taken 3 1 2 0 0
three | | recv:8 recv:2 recv:0 | E31 NoSocket@0 E30 Empty@0 E30 Empty@0
three | arrived:0806 arrived:0800 interrupt | recv:0 recv:1 recv:1 | 60:0800 60:0806 E30 Empty@0
arp | arrived:0800 | unclaimed interrupt unclaimed | 0 taken 1 1
# Buffers in a queue aren't offered: with 8 buffers, a ninth frame moves only after a frame was returned.
tight | 7*arrived:0800 | interrupt arrived:0800 interrupt | taken 7 arrived taken 1
tight | 7*arrived:0800 interrupt arrived:0800 interrupt RNBC | arrive:0800 RNBC data recv:0 data | stored 1 nothing 60:0800 moved
# A frame of 1,518 bytes fills five buffers of 256 bytes and a part of a sixth.
all | | longest:0800 data done data done data done interrupt | stored part done part done part done taken 0
all | longest:0800 data done data done data done interrupt | descriptor | 0001000001000000
all | longest:0800 5*piece | data done interrupt recv:0 | moved done taken 1 1518:0800
# A reset offers as many descriptors as there are buffers outside the sockets' queues.
all | 3*send:0800 take | reset RDH RDT TDH TDT missed | reset 0 7 0 0 0 true
tight | 7*arrived:0800 interrupt | reset RDH RDT RNBC waiting:0 oldest | reset 0 1 0 7 0";

#[test]
fn hosts_send_and_receive(rt: HostRuntime) -> Result<(), Fail> {
    check_rows::<Solo>(&rt, rt.alloc(), ROWS, 19)
}
