//! The frames that a run records: those that adapters put on wires, and those that sockets returned.

ghost use Rattle.std.specs.Prelude.{◌≡◌};
ghost use Rattle.run_record.specs.Puts.{wire_name_of};
ghost use Rattle.scenario.specs.SoFar.{hosts_of};

use descriptors::LONGEST_LEGAL;
use pcap_trace::{RecordWriter, Sink, Unit, WriteError};
use std::alloc::{AllocError, Global};
use std::marker::Model;
use wire::HostPlan;

/// Returns the name of a host's wire, or an empty name if there is no such host.
pub fn wire_of(plans: &[HostPlan], host: usize) -> &str
    ensures { result.now ≡ wire_name_of (hosts_of plans.now) host }
{
    match plans.get(host) {
        Some(plan) => plan.wire.as_str(),
        None => "",
    }
}

/// A frame without its bytes.
#[derive(Clone, Copy)]
struct FrameInfo {
    /// The host whose adapter put the frame, or whose socket returned it.
    host: usize,
    /// The socket that returned the frame; 0 if an adapter put it.
    socket: usize,
    /// The number of the event or drain in which the adapter put the frame, or the socket returned it.
    number: u64,
    /// The number of the frame's bytes.
    length: usize,
}

/// Frames in order, each with its host, its socket and the number of its event or drain.
///
/// In contracts, the value is the list of these frames.
#[derive(Drop)]
pub struct KeptFrames {
    /// The frames without their bytes.
    infos: Vec<FrameInfo>,
    /// The bytes of the frames, one frame after the other.
    bytes: Vec<u8>,
}

impl Model for KeptFrames {
    ghost use Rattle.std.specs.Prelude.{List};
    ghost use Rattle.run_record.specs.Kept.{KeptFrame};

    ghost Value = { List KeptFrame };

    ghost use Rattle.run_record.specs.KeptView.{HasKeptBytes, kept_frames_of};

    ghost view = { kept_frames_of };

    ghost invariant = { HasKeptBytes };
}

/// Which frames belong to each of several traces.
#[derive(Clone, Copy, Drop)]
pub enum Traces<'a> {
    /// A trace for each of these sockets, with the frames that the socket returned. An item is the number of the
    /// socket's host, and the socket's number.
    Sockets(&'a [(usize, usize)]),
    /// A trace for each of the wires with these names, with the frames of the hosts on the wire.
    Wires(&'a [HostPlan], &'a [&'a str]),
}

impl Traces<'_> {
    ghost use Rattle.std.specs.Prelude.{◌≡◌};
    ghost use Rattle.run_record.specs.Traces.{is_in_trace};

    /// Returns whether a frame of this host and this socket belongs to the trace with this number. For the trace of a
    /// wire, the socket has no effect. Returns false if there is no such trace.
    fn wants(&self, trace: usize, host: usize, socket: usize) -> bool
        ensures { result ≡ is_in_trace self.now trace host socket }
    {
        match self {
            Traces::Sockets(sockets) => match sockets.get(trace) {
                Some((of_host, of_socket)) => *of_host == host && *of_socket == socket,
                None => false,
            },
            Traces::Wires(plans, names) => match names.get(trace) {
                Some(wire) => wire_of(*plans, host) == *wire,
                None => false,
            },
        }
    }
}

impl KeptFrames {
    ghost use Rattle.std.specs.Prelude.{◌≡◌, ◌<◌, ◌≤◌, ◌++◌, ◌∷◌, [], ℕ, All, OnErr, OnOk, length};
    ghost use Rattle.std.specs.Io.KnownBytes.{Appends};
    ghost use Rattle.pcap_trace.specs.Devices.{AppendsFront, CountsFailures};
    ghost use Rattle.pcap_trace.specs.Format.{written};
    ghost use Rattle.run_record.specs.Kept.{frames_where, kept_frame};
    ghost use Rattle.run_record.specs.Traces.{is_in_trace, texts_in};
    ghost use Rattle.run_record.specs.WrittenTraces.{AreWritten, AreWrittenUpTo, states_of};

    /// Returns an empty list. Allocates no memory.
    pub fn new(alloc: Global) -> Self
        ensures { result ≡ [] }
    {
        KeptFrames {
            infos: Vec::new(alloc),
            bytes: Vec::new(alloc),
        }
    }

    /// Makes room for `count` more frames of at most 1,518 bytes each. The frames in the list don't change.
    ///
    /// # Errors
    ///
    /// Returns an error only if memory is refused.
    #[inline(never)]
    pub(crate) fn reserve(&mut self, count: usize) -> Result<(), AllocError>
        ensures { self.new ≡ self.old }
    {
        self.infos.reserve(count)?;
        self.bytes.reserve(count.saturating_mul(LONGEST_LEGAL))
    }

    /// Appends a frame of at most 1,518 bytes, with the numbers of its host, its socket, and its event or drain.
    ///
    /// # Errors
    ///
    /// Returns an error only if memory is refused.
    #[inline(never)]
    pub(crate) fn push(
        &mut self,
        host: usize,
        socket: usize,
        number: u64,
        frame: &[u8],
    ) -> Result<(), AllocError>
        requires { length frame.now ≤ 1518 }
        ensures { OnOk result (self.new ≡ self.old ++ kept_frame host socket number frame.now ∷ []) }
    {
        self.infos.reserve(1)?;
        self.bytes.extend_from_slice(frame)?;
        self.infos.push_reserved(FrameInfo {
            host,
            socket,
            number,
            length: frame.len(),
        });
        Ok(())
    }

    /// Writes the trace with this number to a sink, through the buffer of `writer`: the file header and the frames,
    /// with times in this unit. The time of each frame in microseconds is the number of its event or drain. The sink's
    /// number of failures must be able to grow by 1 (`countable`).
    ///
    /// # Errors
    ///
    /// E67 [`Write`](WriteError::Write) if the sink fails. Then a beginning of the trace was written.
    fn write_trace<W: Sink>(
        &self,
        traces: &Traces<'_>,
        trace: usize,
        writer: &mut RecordWriter,
        unit: Unit,
        sink: &mut W,
    ) -> Result<(), WriteError>
        requires countable { W.failures sink.old < u64.MAX }
        ensures ok { OnOk result (Appends (W.taken sink.old) (W.taken sink.new)
            (written unit (frames_where (is_in_trace traces.now trace) self.now))) }
        ensures err { OnErr result (AppendsFront (W.taken sink.old) (W.taken sink.new)
            (written unit (frames_where (is_in_trace traces.now trace) self.now))) }
        ensures failures { CountsFailures result (W.failures sink.old) (W.failures sink.new) }
    {
        writer.begin(unit);
        let mut bytes = self.bytes.as_slice();
        for info in self.infos.as_slice() {
            let (frame, rest) = bytes.split_at(info.length);
            bytes = rest;
            if !traces.wants(trace, info.host, info.socket) {
                continue;
            }
            writer.write(sink, unit, info.number, frame)?;
        }
        writer.flush(sink)
    }

    /// Writes each trace to a sink: the first trace to the first sink, and so on. There must not be more sinks than
    /// traces. If there are fewer sinks, the last traces aren't written. Each sink's number of failures must be able to
    /// grow by 1 (`countable`).
    ///
    /// # Errors
    ///
    /// E67 [`Write`](WriteError::Write) if a sink fails. Then the earlier sinks have their whole traces, this sink has
    /// a beginning of its trace, and the later sinks are unchanged.
    #[tactic(auto, using(crate::proofs::Writing::none_written))]
    pub fn write<W: Sink>(
        &self,
        traces: &Traces<'_>,
        writer: &mut RecordWriter,
        unit: Unit,
        sinks: &mut [W],
    ) -> Result<(), WriteError>
        requires sinks { length sinks.old ≤ length (texts_in traces.now self.now) }
        requires countable { All (λ (sink : W). W.failures sink < u64.MAX) sinks.old }
        ensures ok { OnOk result (AreWritten unit (length sinks.old) (texts_in traces.now self.now)
            (states_of W.taken W.failures sinks.old) (states_of W.taken W.failures sinks.new)) }
        ensures err { OnErr result ((failed : ℕ) × AreWrittenUpTo unit failed (texts_in traces.now self.now)
            (states_of W.taken W.failures sinks.old) (states_of W.taken W.failures sinks.new)) }
    {
        for index in 0..sinks.len() {
            self.write_trace(traces, index, writer, unit, &mut sinks[index])?;
        }
        Ok(())
    }
}
