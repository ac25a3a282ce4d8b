//! The jobs that a command line can ask for.

use receive_lane::PassFilter;

/// A job of the program. As the path of an input, `-` means standard input, except for `drive` and `--schedule`. As the
/// path of OUT of `pass` or of the file of `--events`, `-` means standard output.
#[derive(Clone, Copy)]
pub enum Job<'a> {
    /// `pass`: the frames of a trace go through a receive filter and a ring to another trace.
    Pass(PassJob<'a>),
    /// `run`: runs a scenario, and writes the frames that its sockets returned to traces, and with `--wires` also the
    /// frames on its wires.
    Run(RunJob<'a>),
    /// `show`: lists the frames of a trace.
    Show(ShowJob<'a>),
    /// `serve`: an adapter answers requests.
    Serve(ServeJob<'a>),
    /// `drive`: the driver runs on an adapter that another program models.
    Drive(DriveJob<'a>),
}

/// The job of `pass`.
#[derive(Clone, Copy)]
pub struct PassJob<'a> {
    /// Which frames pass (`--address`, `--group` and `--vlan`, by default none of these options).
    pub filter: PassFilter,
    /// The path of the trace that is read, IN.
    pub input: &'a str,
    /// The path of the trace that is written, OUT.
    pub output: &'a str,
    /// Whether times are written in nanoseconds (`--nanos`).
    pub nanos: bool,
}

/// The job of `run`.
#[derive(Clone, Copy)]
pub struct RunJob<'a> {
    /// The path of the scenario that is run, SCENARIO.
    pub scenario: &'a str,
    /// The path of the folder that traces are written into, OUTDIR.
    pub directory: &'a str,
    /// Whether the traces of wires are written, too (`--wires`).
    pub wires: bool,
    /// Whether times are written in nanoseconds (`--nanos`).
    pub nanos: bool,
    /// The path of the file that gets a line for each event and drain (`--events`, by default none).
    pub events: Option<&'a str>,
}

/// The job of `show`.
#[derive(Clone, Copy)]
pub struct ShowJob<'a> {
    /// The path of the trace that is read, TRACE.
    pub trace: &'a str,
}

/// The job of `serve`. An option that isn't given has its default, which follows the option's name, or is `None`.
#[derive(Clone, Copy)]
pub struct ServeJob<'a> {
    /// The number of bytes of memory, from address 0 on (`--memory`, 1 MiB).
    pub memory: u64,
    /// The address of the first byte of registers (`--registers`, 0xFEB00000).
    pub registers: u64,
    /// Where the adapter's EEPROM gets its contents (`--address`, `--image`, an image of 02:00:00:00:00:01).
    pub image: ServeImage<'a>,
    /// When the link is up (`--link`, after one tick).
    pub link: ServeLink,
    /// The kilobytes of the adapter's receive packet buffer, an even number from 2 to 48 (`--rxa`, 48).
    pub receive_kilobytes: u8,
    /// The seed of all random numbers after a request `interleave` (`--seed`, 0).
    pub seed: u64,
    /// The count of missed frames (MPC) that the adapter begins with (`--missed`, 0).
    pub missed: u32,
    /// The path of the schedule that is played (`--schedule`, none).
    pub schedule: Option<&'a str>,
    /// The path of the file for a schedule of what was played (`--record`, none).
    pub record: Option<&'a str>,
}

/// The job of `drive`. An option that isn't given has its default, which follows the option's name, or is `None`.
#[derive(Clone, Copy)]
pub struct DriveJob<'a> {
    /// The address of the first byte of registers (`--registers`, 0xFEB00000).
    pub registers: u64,
    /// The number of bytes of memory that the driver may use, from address 0 on (`--memory`, 1 MiB).
    pub memory: u64,
    /// The number of descriptors in the receive ring (`--rx`, 64).
    pub rx: u16,
    /// The number of descriptors in the transmit ring (`--tx`, 64).
    pub tx: u16,
    /// The number of receive buffers (`--buffers`, 512).
    pub buffers: u16,
    /// The path of the trace whose frames are sent, IN (`--send`).
    pub send: &'a str,
    /// The path of the trace that received frames are written into, OUT (`--receive`).
    pub receive: &'a str,
    /// The number of received frames after which `drive` ends once it sends no more frames (`--expect`).
    pub expect: Option<u64>,
    /// The number of calls of the handler in a row without a frame received or passed to the driver (`--idle`). After
    /// these calls, `drive` sends no more frames, or ends if it already sends no more.
    pub idle: Option<u64>,
}

/// Where a served adapter's EEPROM gets its contents.
#[derive(Clone, Copy, PartialEq, Eq)]
pub enum ServeImage<'a> {
    /// An image of this Ethernet address, the first byte first (`--address`).
    Address([u8; 6]),
    /// The words in the file with this path (`--image`).
    File(&'a str),
}

/// When the link of a served adapter is up.
#[derive(Clone, Copy, PartialEq, Eq)]
pub enum ServeLink {
    /// After this number of ticks of the PHY, 1 or more.
    After(u16),
    /// Never.
    Never,
}

/// An option whose value can be refused. The option has the name of the variant in lower case: `Address` is
/// `--address`.
#[derive(Clone, Copy, Debug)]
pub enum ValueOption {
    Address,
    Group,
    Vlan,
    Memory,
    Registers,
    Image,
    Link,
    Rxa,
    Seed,
    Missed,
    Rx,
    Tx,
    Buffers,
    Expect,
    Idle,
}
