/// The result of a step that takes a frame from the ring.
#[derive(Clone, Copy, Debug, PartialEq, Eq)]
pub enum Take {
    /// There was nothing to take: TCTL.EN is 0, a fault has stopped the engine, its buffer is full, or head equals
    /// tail.
    Nothing,
    /// The frame at the head is now in the buffer, and the head has advanced by one slot.
    Took {
        /// Whether head now equals tail: the adapter owns no descriptor any more.
        emptied: bool,
    },
    /// The frame at the head can't be taken. The engine takes no frame until a reset, but still puts the frames in its
    /// buffer onto the wire.
    Fault,
}

/// The result of a step that puts a frame onto the wire.
#[derive(Clone, Copy, Debug, PartialEq, Eq)]
pub enum Put {
    /// The buffer is empty.
    Nothing,
    /// A frame is in the buffer, but the wire has no room.
    WireFull,
    /// The oldest frame is on the wire.
    Put {
        /// Whether the frame's descriptor asks for a report (RS).
        reported: bool,
    },
}
