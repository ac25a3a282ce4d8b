/// The number of frames of a trace, without truncated packets, and the number of these frames with each fate.
#[derive(Clone, Copy, Debug, Default, PartialEq, Eq)]
pub struct PassCounts {
    /// The number of frames of the trace.
    pub read: u64,
    /// The number of frames below 14 or above 1,518 bytes.
    pub illegal: u64,
    /// The number of frames of 14 to 1,518 bytes that the filter rejected.
    pub filtered: u64,
    /// The number of frames that were written.
    pub written: u64,
}
