//! The code of the README of `descriptors`, word for word, and a packed queue.

use bitflags::Flags;
use descriptors::{
    Frame, FrameQueue, PackedQueue, Ring, RxDesc, RxStatus, TxCommand, TxDesc, TxStatus,
};
use std::test::Fail;

#[test]
fn the_code_of_the_readme_of_descriptors(rt: HostRuntime) {
    // A ring of eight descriptors at 0x80: seven are the adapter's, slot 7 is the driver's.
    let mut ring = Ring {
        base: 0x80,
        bytes: 128,
        head: 0,
        tail: 7,
    };
    assert!(rt; ring.has_valid_indices() && ring.distance(ring.head, ring.tail) == 7);
    ring.head = ring.next(ring.head);
    assert!(rt; ring.descriptor(ring.head, 0x100) == Some(0x90));
}

#[test]
fn the_code_of_the_readme_of_descriptors_where_a_frame_is_to_be_sent(rt: HostRuntime) {
    // A whole packet of 14 bytes at 0x800, whose transmission is to be reported.
    let desc = TxDesc {
        address: 0x800,
        length: 14,
        cso: 0,
        command: TxCommand::EOP.union(TxCommand::RS),
        status: TxStatus::from_bits_retain(0),
        css: 0,
        special: 0,
    };
    let bytes = desc.to_bytes();
    assert!(rt; bytes == [0, 8, 0, 0, 0, 0, 0, 0, 14, 0, 0, 0x09, 0, 0, 0, 0]);
    assert!(rt; TxDesc::from_bytes(&bytes) == desc);
}

#[test]
fn the_code_of_the_readme_of_descriptors_where_a_frame_was_received(rt: HostRuntime) {
    // A finished receive descriptor.
    let finished = RxDesc::from_bytes(&[0, 8, 0, 0, 0, 0, 0, 0, 60, 0, 0, 0, 0x03, 0, 0, 0]);
    assert!(rt; finished.status.contains(RxStatus::DD) && finished.length == 60);
    // A frame has at most 1,518 bytes.
    let long = Frame::try_from_slice(&[0xFF; 1_519]);
    assert!(rt; Frame::from_slice(&[0xFF; 60]).len() == 60 && long.is_none());
}

#[test]
fn the_code_of_the_readme_of_descriptors_where_frames_are_queued(
    rt: HostRuntime,
) -> Result<(), Fail> {
    let mut queue = FrameQueue::new(rt.alloc(), 2)?;
    queue.push(&[0xFF; 60]);
    queue.push_padded(&[0xFF; 14], 60); // and 46 zeros
    assert!(rt; queue.is_full());
    assert_eq!(rt; queue.front(), Some([0xFF; 60].as_slice()));
    queue.pop();
    assert_eq!(rt; queue.len(), 1);
    let second = queue.front().unwrap_or_default();
    assert_eq!(rt; second.len(), 60);
    assert!(rt; second.starts_with(&[0xFF; 14]) && second.ends_with(&[0; 46]));
    queue.clear();
    assert!(rt; queue.is_empty());
    Ok(())
}

#[test]
fn a_packed_queue_stores_a_frame_where_the_first_was(rt: HostRuntime) -> Result<(), Fail> {
    let mut queue = PackedQueue::new(rt.alloc(), 2, 100)?;
    queue.push(&[0xFF; 60]);
    queue.push(&[0; 40]);
    assert_eq!(rt; queue.front(), Some([0xFF; 60].as_slice()));
    queue.pop();
    queue.push(&[1; 50]); // where the first frame was
    assert_eq!(rt; queue.len(), 2);
    let second = queue.front().unwrap_or_default();
    assert_eq!(rt; second.len(), 40);
    assert!(rt; second.starts_with(&[0; 40]));
    queue.clear();
    assert_eq!(rt; queue.len(), 0);
    Ok(())
}
