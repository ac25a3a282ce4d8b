ghost use Rattle.descriptors.specs.RxDesc.{DescriptorsComeBack, BytesComeBack};
ghost use Rattle.descriptors.specs.TxDesc.{TxDescriptorsComeBack, TxBytesComeBack};
ghost use Rattle.descriptors.specs.Ring.{OfferedBeginAtHead, NoneIsOffered, OfferedAreDistance, OfferedGrowAtTail};
ghost use Rattle.descriptors.specs.Frames.{SendablePaddedIsLegal, PaddedBeginsWithFrame, LongFramesStay};

/// Laws of receive descriptors. A descriptor whose fields fit into their widths, converted to bytes and back, is the
/// same descriptor. Sixteen bytes that are converted to a descriptor and back are the same bytes.
///
/// The function does nothing: its contract is the laws.
pub fn descriptors_come_back()
    ensures descriptors { DescriptorsComeBack }
    ensures bytes { BytesComeBack }
{}

/// Laws of transmit descriptors. A descriptor whose fields fit into their widths, converted to bytes and back, is the
/// same descriptor. Sixteen bytes that are converted to a descriptor and back are the same bytes.
///
/// The function does nothing: its contract is the laws.
pub fn transmit_descriptors_come_back()
    ensures descriptors { TxDescriptorsComeBack }
    ensures bytes { TxBytesComeBack }
{}

/// Laws of the slots that the adapter owns, in a ring.
///
/// - `begins`: if head and tail are indices of different slots, the adapter's first slot is the one at the head. After
///   the head advances by one slot, the adapter owns the same slots without this one.
/// - `empty`: if head equals tail, the adapter owns no slot.
/// - `length`: the number of the adapter's slots is the distance from head to tail.
/// - `grows`, if head and tail are indices of slots: when the tail advances by one slot, but not to the head, the slot
///   at the old tail becomes the adapter's last slot.
///
/// The function does nothing: its contract is the laws.
pub fn offered_places_go_from_head_to_tail()
    ensures begins { OfferedBeginAtHead }
    ensures empty { NoneIsOffered }
    ensures length { OfferedAreDistance }
    ensures grows { OfferedGrowAtTail }
{}

/// Laws of padding with zeros to 60 bytes. A frame that can be sent is legal after it is padded. A padded frame begins
/// with the frame. Padding doesn't change a frame of 60 bytes or more.
///
/// The function does nothing: its contract is the laws.
pub fn sendable_frames_are_padded_to_legal()
    ensures legal { SendablePaddedIsLegal }
    ensures begins { PaddedBeginsWithFrame }
    ensures stays { LongFramesStay }
{}
