// The lines of the program that answers: answers to requests, and lines before an answer.

ghost use Rattle.std.specs.Prelude.{◌≡◌, length};
ghost use Rattle.drive.specs.QtestLines as spec;

use crate::BusFault;
use std::io::BufRead;
use text::turns;

/// The byte that ends a line.
const LINE_FEED: u8 = 0x0A;

/// The answer to a write.
const DONE: &[u8] = b"OK";

/// The beginning of an answer with a number or with bytes.
const BYTES: &[u8] = b"OK 0x";

/// The size of a register's value in an answer, in bytes. Each byte has two hexadecimal digits.
const VALUE_BYTES: usize = 8;

/// The reader of lines, the last line, and the level of the interrupt line.
#[derive(Drop)]
pub(crate) struct Answers<R> {
    pub(crate) input: R,
    /// The line that was read last, without its line feed. If its read failed, bytes of this line.
    pub(crate) line: Vec<u8>,
    /// Whether the interrupt line is asserted, as the last `IRQ` line reported. It is `false` before the first one.
    pub(crate) asserted: bool,
}

/// The kind of a line.
enum Line {
    /// An `IRQ` line: whether the interrupt line is asserted now.
    Interrupt(bool),
    /// A report of a frame on the wire, of the arrival of an offered frame, or of a fault; or a line of the log.
    Report,
    /// Any other line, which is an answer.
    Answer,
}

/// Returns the kind of a line.
fn kind_of(line: &[u8]) -> Line
    ensures { result ≡ spec.qtest_line_kind line.now }
{
    if line.starts_with(b"IRQ raise ") {
        Line::Interrupt(true)
    } else if line.starts_with(b"IRQ lower ") {
        Line::Interrupt(false)
    } else if line.starts_with(b"frame ")
        || line.starts_with(b"arrived ")
        || line.starts_with(b"fault ")
        || line.starts_with(b"#")
    {
        Line::Report
    } else {
        Line::Answer
    }
}

/// Fills `into` from the digits in an answer. Returns `false` if the answer isn't `OK 0x` and exactly two digits for
/// each byte of `into`; then `into` may be changed.
fn take_bytes(answer: &[u8], into: &mut [u8]) -> bool
    ensures length { length into.new ≡ length into.old }
{
    match answer.strip_prefix(BYTES) {
        Some(digits) => hex::decode_to_slice(digits, into).is_ok(),
        None => false,
    }
}

impl<R: BufRead> Answers<R> {
    /// Reads the next line into `line`, without its line feed. Fails with `Read` if the input ends before a line feed,
    /// or a read fails, and with `Memory` if memory was refused.
    fn read_line(&mut self) -> Result<(), BusFault> {
        self.line.clear();
        match self.input.read_until(LINE_FEED, &mut self.line) {
            Ok(_) => {}
            Err(error) => return Err(BusFault::of_reading(error)),
        }
        if self.line.pop() == Some(LINE_FEED) {
            Ok(())
        } else {
            Err(BusFault::Read)
        }
    }

    /// Reads lines up to and including the next answer. Stores the level that the last `IRQ` line before the answer
    /// reports, if there is such a line. Fails as `read_line` does.
    fn next(&mut self) -> Result<(), BusFault> {
        // The loop reads at most 2^64 - 1 lines, so that its end can be proved.
        for _count in turns() {
            self.read_line()?;
            match kind_of(self.line.as_slice()) {
                Line::Interrupt(asserted) => self.asserted = asserted,
                Line::Report => {}
                Line::Answer => return Ok(()),
            }
        }
        Err(BusFault::Read)
    }

    /// Reads the answer to a write. Fails with `Answer` if the answer isn't `OK`, or as `next` does.
    pub(crate) fn done(&mut self) -> Result<(), BusFault> {
        self.next()?;
        if self.line.as_slice() == DONE {
            Ok(())
        } else {
            Err(BusFault::Answer)
        }
    }

    /// Reads the answer to a read of bytes, and fills `into` with the bytes. Fails with `Answer` unless the answer is
    /// `OK 0x` and two digits for each byte, or as `next` does. After an error, `into` may be changed.
    pub(crate) fn bytes(&mut self, into: &mut [u8]) -> Result<(), BusFault>
        ensures length { length into.new ≡ length into.old }
    {
        self.next()?;
        if take_bytes(self.line.as_slice(), into) {
            Ok(())
        } else {
            Err(BusFault::Answer)
        }
    }

    /// Reads the answer to a read of a register, and returns the register's value. Fails with `Answer` unless the
    /// answer is `OK 0x` and 16 digits, of which the first eight are 0, or as `next` does.
    pub(crate) fn value(&mut self) -> Result<u32, BusFault> {
        let mut bytes = [0; VALUE_BYTES];
        self.bytes(&mut bytes)?;
        u32::try_from(u64::from_be_bytes(bytes)).map_err(|_| BusFault::Answer)
    }
}
