//! A file that keeps its bytes until the first new byte is written.

use std::fs::OpenFile;
use std::io::{self, ErrorKind, Write};

/// A file that is written from its beginning. Its old bytes are dropped just before the first write, so a program that
/// ends earlier doesn't change the file.
#[derive(Drop)]
pub struct LateFile<F> {
    file: F,
    /// Whether nothing was written yet, so that the file may still have its old bytes.
    has_old_bytes: bool,
    /// The number of bytes up to the maximum size of a file, or `None` without a maximum. Only a plain file has one.
    room: Option<u64>,
}

impl<F: OpenFile> LateFile<F> {
    /// Returns a `LateFile` over a file that was opened for writing, and not truncated. `most` is the maximum size in
    /// bytes of a plain file, or `None` without a maximum.
    pub fn new(file: F, most: Option<u64>) -> LateFile<F> {
        LateFile {
            file,
            has_old_bytes: true,
            room: most,
        }
    }

    /// Truncates a plain file. A device or a pipe isn't changed, and has no maximum size.
    fn begin(&mut self) -> io::Result<()> {
        if self.file.metadata()?.is_file() {
            self.file.set_len(0)?;
        } else {
            self.room = None;
        }
        self.has_old_bytes = false;
        Ok(())
    }
}

/// The first write truncates a plain file. It doesn't change a device or a pipe. If the file can't be truncated, it
/// writes nothing, and fails; then the next write tries again. A write to a plain file that has its maximum size fails,
/// too; the system would end the process for it (SIGXFSZ).
impl<F: Write + OpenFile> Write for LateFile<F> {
    fn write(&mut self, buf: &[u8]) -> io::Result<usize> {
        if self.has_old_bytes {
            self.begin()?;
        }
        if self.room == Some(0) {
            return Err(io::Error::from(ErrorKind::FileTooLarge));
        }
        let count = self.file.write(buf)?;
        self.room = self.room.map(|room| room.saturating_sub(count as u64));
        Ok(count)
    }

    fn flush(&mut self) -> io::Result<()> {
        self.file.flush()
    }
}
