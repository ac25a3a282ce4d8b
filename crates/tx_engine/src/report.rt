ghost use Rattle.std.specs.Prelude.{◌+◌, ◌<◌, ◌^◌};

/// What a put step needs to write back the descriptor of a frame.
#[derive(Clone, Copy)]
pub struct Report {
    /// The address at which the frame's descriptor was read.
    pub descriptor: u64,
    /// Whether the descriptor asks for a report (RS).
    pub rs: bool,
    /// The address of the descriptor's status byte, byte 12, fits into 64 bits.
    pub ghost fits: { descriptor + 12 < 2 ^ 64 },
}
