//! The law of the written form.
ghost use Rattle.pcap_trace.specs.Format.{WrittenIsTrace, WrittenIsNoOther};

/// The law of the written form. If each frame has at most 262,144 bytes, the bytes written are a trace of these frames:
/// no packet is skipped, and the end isn't cut off. Under this condition, the bytes written are a trace of no other
/// frames, and with no other values of `skipped` and `cut`.
///
/// The function does nothing: its contract is the law.
pub fn written_is_trace()
    ensures found { WrittenIsTrace }
    ensures no_other { WrittenIsNoOther }
{}
