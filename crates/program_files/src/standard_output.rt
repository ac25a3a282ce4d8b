//! Standard output as a writer.

use crate::limits::{most_file_bytes, output_end};
use std::io::{self, ErrorKind, Write};
use std::rt::Files;

/// Standard output as a writer. A write to a plain file that has its maximum size fails; the system would end the
/// process for it (SIGXFSZ).
#[derive(Drop)]
pub struct StandardOutput<'a, R> {
    rt: &'a R,
    /// The maximum size in bytes of a plain file, or `None` without a maximum.
    most: Option<u64>,
}

impl<'a, R: Print + Files> StandardOutput<'a, R> {
    /// Returns a writer to the standard output of this runtime.
    pub fn new(rt: &'a R) -> StandardOutput<'a, R> {
        StandardOutput {
            rt,
            most: most_file_bytes(rt),
        }
    }

    /// Returns whether standard output is a plain file that has its maximum size.
    fn is_full(&self) -> bool {
        match (self.most, output_end(self.rt)) {
            (Some(most), Some(end)) => most <= end,
            _ => false,
        }
    }
}

impl<R: Print + Files> Write for StandardOutput<'_, R> {
    fn write(&mut self, buf: &[u8]) -> io::Result<usize> {
        if self.most.is_some() && self.is_full() {
            return Err(io::Error::from(ErrorKind::FileTooLarge));
        }
        io::writer(self.rt).write(buf)
    }

    fn flush(&mut self) -> io::Result<()> {
        Ok(())
    }
}
