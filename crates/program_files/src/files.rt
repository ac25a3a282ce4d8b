//! Inputs and outputs: files, pipes and standard input.
ghost use Rattle.std.specs.Prelude.{◌≡◌, All, IfOk, length};

use crate::file_error::FileError;
use crate::late_file::LateFile;
use crate::limits::most_file_bytes;
use crate::progress::{ReportingReader, Watched};
use pcap_trace::{ReadError, ReaderSource, Sink, SliceSource, Trace, WriterSink};
use std::alloc::{AllocError, Global};
use std::fs::{self, OpenFile, OpenOptions};
use std::io::{ErrorKind, Input, Read};
use std::os::unix::fs::FileTypeExt;
use std::rt::Files;

/// The path that means standard input, as an input, and standard output, as an output.
pub const STANDARD_STREAM: &str = "-";

/// The path whose metadata are those of standard input.
pub const STANDARD_INPUT_FILE: &str = "/dev/stdin";

/// The maximum number of bytes of standard input or a pipe: 1 GiB.
const MOST_PIPED: u64 = 1 << 30;

/// A file as a sink.
pub type FileSink<F> = WriterSink<LateFile<F>>;

/// An input that was opened.
#[derive(Drop)]
enum Opened<F> {
    /// A file, and its length in bytes when it was opened.
    File(F, u64),
    /// All bytes of standard input or of a pipe.
    Piped(Vec<u8>),
}

/// Reads at most `limit` bytes of an input. The error of a failed read contains `path`, the path of the input.
fn read_up_to<S: Read + Drop>(
    alloc: Global,
    path: &str,
    reader: S,
    limit: u64,
) -> Result<Vec<u8>, FileError> {
    let mut bytes = Vec::new(alloc);
    match reader.take(limit).read_to_end(&mut bytes) {
        Ok(_) => Ok(bytes),
        Err(error) if error.kind() == ErrorKind::OutOfMemory => Err(FileError::Memory),
        Err(_) => Err(FileError::input(alloc, ReadError::Read, path)),
    }
}

/// Reads standard input or a pipe to its end. Fails if there are more than [`MOST_PIPED`] bytes. The error of a failed
/// read contains `path`.
fn read_pipe<F, S: Read + Drop>(
    alloc: Global,
    path: &str,
    reader: S,
) -> Result<Opened<F>, FileError> {
    // One byte more shows that the input is too long.
    match read_up_to(alloc, path, reader, MOST_PIPED + 1) {
        Ok(bytes) if bytes.len() as u64 > MOST_PIPED => Err(FileError::Pipe),
        Ok(bytes) => Ok(Opened::Piped(bytes)),
        Err(error) => Err(error),
    }
}

/// Opens the input at a path that isn't `-`. A pipe is read to its end. A folder is refused, and so is a device, which
/// may have no end.
fn open_input<R: Files + AllocGlobal>(rt: &R, path: &str) -> Result<Opened<R::File>, FileError> {
    let alloc = rt.alloc();
    let Ok(file) = fs::open(rt, path) else {
        return Err(FileError::open(alloc, path));
    };
    let Ok(metadata) = file.metadata() else {
        return Err(FileError::open(alloc, path));
    };
    let kind = metadata.file_type();
    if kind.is_file() {
        Ok(Opened::File(file, metadata.len()))
    } else if kind.is_fifo() {
        read_pipe(alloc, path, file)
    } else if kind.is_dir() {
        Err(FileError::input(alloc, ReadError::Read, path))
    } else {
        Err(FileError::open(alloc, path))
    }
}

/// Opens the input at a path. The path `-` means standard input, which is read to its end, as a pipe is.
fn open<R: Files + Input + AllocGlobal>(rt: &R, path: &str) -> Result<Opened<R::File>, FileError> {
    match path {
        STANDARD_STREAM => read_pipe(rt.alloc(), path, rt.reader()),
        _ => open_input(rt, path),
    }
}

/// Returns whether standard input is a pipe.
pub fn is_input_piped<R: Files>(rt: &R) -> bool {
    match fs::metadata(rt, STANDARD_INPUT_FILE) {
        Ok(metadata) => metadata.file_type().is_fifo(),
        Err(_) => false,
    }
}

/// Reads a trace from the input at a path, or from standard input if the path is `-`. Reports the progress of a long
/// file.
pub fn read_trace<R: Files + Input + Watched + AllocGlobal>(
    rt: &R,
    path: &str,
) -> Result<Trace, FileError> {
    let alloc = rt.alloc();
    let read = match open(rt, path) {
        Ok(Opened::File(file, length)) => {
            let reader = ReportingReader::new(rt, file, length);
            Trace::read(alloc, &mut ReaderSource::new(reader, length))
        }
        Ok(Opened::Piped(bytes)) => Trace::read(alloc, &mut SliceSource::new(bytes.as_slice())),
        Err(error) => return Err(error),
    };
    match read {
        Ok(trace) => Ok(trace),
        Err(error) => Err(FileError::input(alloc, error, path)),
    }
}

/// Reads the traces from the inputs at these paths, in order, as by [`read_trace`].
pub fn read_traces<R: Files + Input + Watched + AllocGlobal>(
    rt: &R,
    paths: &[String],
) -> Result<Vec<Trace>, FileError>
    ensures { IfOk result (λ traces. length traces.items ≡ length paths.now) }
{
    let mut traces = Vec::new(rt.alloc());
    for path in paths {
        traces.push(read_trace(rt, path.as_str())?)?;
    }
    Ok(traces)
}

/// Reads the file at a path: its first `limit` bytes, or without a limit the bytes that it had when it was opened.
/// `limit` doesn't apply to standard input, if the path is `-`, and to pipes: they are read to their end. Fails with
/// [`Pipe`](FileError::Pipe) if standard input or a pipe is too long.
fn read_input<R: Files + Input + AllocGlobal>(
    rt: &R,
    path: &str,
    limit: Option<u64>,
) -> Result<Vec<u8>, FileError> {
    match open(rt, path) {
        Ok(Opened::File(file, length)) => {
            read_up_to(rt.alloc(), path, file, limit.unwrap_or(length))
        }
        Ok(Opened::Piped(bytes)) => Ok(bytes),
        Err(error) => Err(error),
    }
}

/// Reads all bytes of the input at a path, or of standard input if the path is `-`. Bytes that are appended after a
/// file was opened aren't read. Fails with [`Pipe`](FileError::Pipe) if standard input or a pipe is too long.
pub fn read_bytes<R: Files + Input + AllocGlobal>(
    rt: &R,
    path: &str,
) -> Result<Vec<u8>, FileError> {
    read_input(rt, path, None)
}

/// Reads the first `limit` bytes of the file at a path, or all bytes of a shorter file. `limit` doesn't apply to
/// standard input (`-`) and pipes, which are read as by [`read_bytes`].
pub fn read_front<R: Files + Input + AllocGlobal>(
    rt: &R,
    path: &str,
    limit: u64,
) -> Result<Vec<u8>, FileError> {
    read_input(rt, path, Some(limit))
}

/// Reads a trace from a file or a pipe with a path. The path `-` is refused.
pub fn read_file_trace<R: Files + Input + Watched + AllocGlobal>(
    rt: &R,
    path: &str,
) -> Result<Trace, FileError> {
    match path {
        STANDARD_STREAM => Err(FileError::open(rt.alloc(), path)),
        _ => read_trace(rt, path),
    }
}

/// Reads all bytes of a file or a pipe with a path. The path `-` is refused.
pub fn read_file_bytes<R: Files + Input + AllocGlobal>(
    rt: &R,
    path: &str,
) -> Result<Vec<u8>, FileError> {
    match path {
        STANDARD_STREAM => Err(FileError::open(rt.alloc(), path)),
        _ => read_bytes(rt, path),
    }
}

/// Opens a file for writing. A file that doesn't exist is created; an existing file keeps its bytes until the first new
/// byte is written.
pub fn create_file<R: Files + AllocGlobal>(
    rt: &R,
    path: &str,
) -> Result<LateFile<R::File>, FileError> {
    match OpenOptions::new().write(true).create(true).open(rt, path) {
        Ok(file) => Ok(LateFile::new(file, most_file_bytes(rt))),
        Err(_) => Err(FileError::open(rt.alloc(), path)),
    }
}

/// Opens a file as a sink, whose count of failures is 0. A file that doesn't exist is created; an existing file keeps
/// its bytes until the first new byte is written.
pub fn create<R: Files + AllocGlobal>(rt: &R, path: &str) -> Result<FileSink<R::File>, FileError>
    ensures { IfOk result (λ sink. ⟦<FileSink<R::File> as Sink>⟧.failures sink ≡ 0) }
{
    Ok(WriterSink::new(create_file(rt, path)?))
}

/// Returns the path of the file with this name in a folder. Fails only if memory is refused.
pub fn path_in(alloc: Global, directory: &str, name: &str) -> Result<String, AllocError> {
    format!(in alloc; "{directory}/{name}")
}

/// Opens or creates a file with this name in a folder, as a sink, whose count of failures is 0. Refuses a name with a
/// slash: its file would be in another folder.
fn create_in<R: Files + AllocGlobal>(
    rt: &R,
    directory: &str,
    name: &str,
) -> Result<FileSink<R::File>, FileError>
    ensures { IfOk result (λ sink. ⟦<FileSink<R::File> as Sink>⟧.failures sink ≡ 0) }
{
    let Ok(path) = path_in(rt.alloc(), directory, name) else {
        return Err(FileError::Memory);
    };
    if name.contains('/') {
        return Err(FileError::Open(path));
    }
    create(rt, path.as_str())
}

/// Opens or creates a file for each of these names in a folder, in order.
pub fn create_all<R: Files + AllocGlobal>(
    rt: &R,
    directory: &str,
    names: &[String],
) -> Result<Vec<FileSink<R::File>>, FileError>
    ensures count { IfOk result (λ sinks. length sinks.items ≡ length names.now) }
    // Each sink's count of failures is 0.
    ensures countable { IfOk result (λ sinks.
        All (λ sink. ⟦<FileSink<R::File> as Sink>⟧.failures sink ≡ 0) sinks.items) }
{
    let mut sinks = Vec::new(rt.alloc());
    for name in names {
        sinks.push(create_in(rt, directory, name.as_str())?)?;
    }
    Ok(sinks)
}

/// Checks that a path is the path of a folder. Fails if it isn't.
pub fn find_folder<R: Files + AllocGlobal>(rt: &R, path: &str) -> Result<(), FileError> {
    match fs::metadata(rt, path) {
        Ok(metadata) if metadata.is_dir() => Ok(()),
        _ => Err(FileError::open(rt.alloc(), path)),
    }
}
