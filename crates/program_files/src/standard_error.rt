//! Standard error as a writer.

use std::io::{self, ErrorKind, Write};

/// Standard error as a writer of text. A write of bytes that aren't UTF-8 fails.
#[derive(Drop)]
pub struct StandardError<'a, R> {
    rt: &'a R,
}

impl<'a, R: Eprint> StandardError<'a, R> {
    /// Returns a writer to the standard error of this runtime.
    pub fn new(rt: &'a R) -> StandardError<'a, R> {
        StandardError { rt }
    }
}

impl<R: Eprint> Write for StandardError<'_, R> {
    fn write(&mut self, buf: &[u8]) -> io::Result<usize> {
        let Ok(text) = str::from_utf8(buf) else {
            return Err(io::Error::from(ErrorKind::InvalidData));
        };
        eprint!(self.rt; "{text}")?;
        Ok(buf.len())
    }

    fn flush(&mut self) -> io::Result<()> {
        Ok(())
    }
}
