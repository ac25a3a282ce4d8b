//! Frames from host to host: calls, steps and deliveries, and what each answers.

use crate::network::Network;
use crate::said::check_rows;
use std::test::Fail;

/// Rows of networks.
const ROWS: &str = "\
# A frame of 14 bytes is padded to 60 bytes.
two | | send:0800 bring data:b done:b interrupt:b recv:b | ok took put stored moved done taken 1 60:0800
two | | thirteen longer:0800 | E20 TooShort@0 E21 TooLong@0
# A frame of 1,518 bytes fills five buffers of 256 bytes and a part of a sixth.
two | longest:0800 bring | 3*finish interrupt:b | part done part done part done taken 0
two | longest:0800 bring 3*finish interrupt:b | 3*finish interrupt:b recv:b | part done part done moved done taken 1 1518:0800
two | longest:0800 bring | drain:1 drain:1 | steps 15 1518:0800 steps 0
# A transmit ring of 8 descriptors has room for 7 frames. A slot is free after its frame is put on the wire.
two | 6*send:0800 | 2*send:0800 take:a send:0800 put:a send:0800 | ok E22 RingFull took E22 RingFull put ok
large | 4094*send:0800 | 2*send:0800 | ok E22 RingFull
# A frame is taken after its descriptor is written back, also during the handler.
two | 2*brought:0800 | data:b interrupt:b done:b data:b interrupt:b done:b interrupt:b | moved not mine done moved taken 1 done taken 1
two | 2*brought:0800 | finish late interrupt:b interrupt:b | moved done taken 2 moved@1 done@1 taken 0 not mine
# A frame is missed if the receive packet buffer has no room.
small | longest:0800 bring | longest:0800 bring longest:0800 bring | ok took put missed ok took put missed
small | longest:0800 bring longest:0800 bring longest:0800 bring | interrupt:b counts:1 | taken 0 missed 2 true rnbc 0 unclaimed 0 log 3
small | 24*brought:0800 | 2*brought:0800 | ok took put stored ok took put missed
small | longest:0800 bring 5*brought:0800 | 2*brought:0800 | ok took put stored ok took put missed
# A frame for which no descriptor is offered waits, and isn't missed.
two | 7*arrived:0800 | brought:0800 counts:1 data:b | ok took put stored missed 0 true rnbc 1 unclaimed 0 log 8 nothing
two | 7*arrived:0800 brought:0800 | interrupt:b finish interrupt:b | taken 7 moved done taken 1
# The number of a group selects a bit of MTA, and the bit accepts each group with this number.
group | | to:01005e000001 bring to:01005f000001 bring | ok took put stored ok took put stored
group | | to:01005e000002 bring to:02005e000001 bring | ok took put filtered ok took put filtered
# The VLAN identifier of a tag selects a bit of VFTA. A frame without a tag passes.
vlan | | brought:81000005 brought:81000006 | ok took put stored ok took put filtered
vlan | | brought:81002005 brought:0800 | ok took put stored ok took put stored
# Each end receives the frames of all others in the order of the puts. Hosts a and b also handle TXDW.
three | a:08a1 a:08a2 b:08b1 2*take:a take:b put:a put:b put:a 3*deliver:c | drain:2 | steps 12 60:08a1 60:08b1 60:08a2
three | a:08a1 a:08a2 b:08b1 2*take:a take:b put:a put:b put:a 3*deliver:b | drain:1 | steps 9 60:08a1 60:08a2
three | a:08a1 a:08a2 b:08b1 2*take:a take:b put:a put:b put:a 3*deliver:a | drain:0 | steps 5 60:08b1
# A put waits while 64 frames wait at another end.
two | 64*gone:0800 send:0800 take:a | put:a deliver:b put:a | full stored put
three | 64*gone:0800 a:0800 b:0800 c:0800 take:a take:b take:c 64*deliver:b | put:a put:b put:c | full full put
# A log of 1,024 entries keeps the frame that waits at host a.
two | b:0800 take:b put:b 2000*brought:0800 | counts:0 deliver:a | missed 0 true rnbc 0 unclaimed 0 log 978 stored
# A drain moves, finishes, takes and returns each frame. An interrupt for TXDW is one more step.
two | brought:0801 brought:0802 brought:0803 | drain:1 | steps 12 60:0801 60:0802 60:0803
two | 3*brought:0801 b:0800 take:b put:b | drain:1 | steps 13 60:0801 60:0801 60:0801
two | arrived:0801 arrived:0802 5*arrived:0803 brought:0808 brought:0809 | drain:1 drain:1 | steps 16 60:0801 60:0802 60:0803 60:0803 60:0803 60:0803 60:0803 60:0808 60:0809 steps 0
bare | brought:0800 | drain:1 counts:1 drain:9 counts:9 | steps 3 missed 0 true rnbc 0 unclaimed 1 log 1 steps 0 no counts, log 0
# The ticks of a call without an access are played at its end.
two | | line:recv_b_0_/_txtake:a_go_deliver:b | E30 Empty@0 nothing@0 nothing@0
# A run of no events changes nothing. The ticks of a call for a host that isn't there are played.
two | gone:0800 | counts:1 nothing counts:1 | missed 0 true rnbc 0 unclaimed 0 log 1 missed 0 true rnbc 0 unclaimed 0 log 1
two | | nobody | no host@0 nothing@0 nothing@0 nothing@0
# Two groups share a bit of MTA, which a leave clears only if no joined group needs it.
two | | join:01:00:5e:00:00:01 join:01:00:5f:00:00:01 leave:01:00:5e:00:00:01 | joined@1 joined@0 left@0
two | join:01:00:5e:00:00:01 join:01:00:5f:00:00:01 leave:01:00:5e:00:00:01 | to:01005e000001 bring leave:01:00:5f:00:00:01 to:01005e000001 bring | ok took put stored left@1 ok took put filtered
two | 2*to:01005e000001 2*take:a 2*put:a | line:join_b_01:00:5e:00:00:01_/_deliver:b_go_deliver:b | joined@1 filtered@0 stored@1
group | | join:01:00:5e:00:00:01 leave:01:00:5e:00:00:02 | E26 Joined@0 E25 NotJoined@0
two | | join:02:00:00:00:00:02 leave:02:00:00:00:00:02 | E23 NotGroup@0 E23 NotGroup@0
full | | join:01:00:5e:00:00:01 join:01:00:5e:00:01:00 join:02:00:00:00:00:02 | E26 Joined@0 E24 GroupsFull@0 E23 NotGroup@0
# A reset drops the frames that aren't on the wire, and the received frames that no socket has.
two | 3*send:0800 take:a | reset:a | sending 3 holding 0 on after 310
two | 2*gone:0800 | line:reset_b_/_deliver:b_go_deliver:b counts:1 | sending 0 holding 1 on after 310 stored@0 off@1 missed 0 true rnbc 0 unclaimed 0 log 2";

#[test]
fn frames_go_from_host_to_host(rt: HostRuntime) -> Result<(), Fail> {
    check_rows::<Network>(&rt, rt.alloc(), ROWS, 40)
}
