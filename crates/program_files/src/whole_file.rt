//! An output file that gets all its new bytes at once, if it can be replaced.
ghost use Rattle.std.specs.Prelude.{◌≡◌, IfOk};

use crate::file_error::FileError;
use crate::files::{FileSink, create_file};
use crate::late_file::LateFile;
use crate::limits::most_file_bytes;
use pcap_trace::{Sink, WriteError, WriterSink};
use std::alloc::AllocError;
use std::fs::{self, Metadata, OpenFile, OpenOptions};
use std::io::ErrorKind;
use std::os::unix::fs::MetadataExt;
use std::rt::Files;

/// The maximum number of names that are tried for a part.
const MOST_PARTS: u32 = 100;

/// An output that was opened.
///
/// If the output can be replaced, its new bytes are written to a part, which is another file in the same folder.
/// [`finish`](WholeFile::finish) renames the part to the output. So the output has its old bytes or all new bytes, even
/// if the program is killed.
#[derive(Drop)]
pub struct WholeFile<F> {
    /// The sink for the new bytes.
    pub sink: FileSink<F>,
    /// The path of the part, or `None` if the output is written in place.
    part: Option<String>,
}

/// A part: a new file that replaces an output.
#[derive(Drop)]
struct Part<F> {
    /// The file, which was opened for writing.
    file: F,
    /// The path of the file.
    path: String,
}

/// The result of making a part at one path.
#[derive(Drop)]
enum NewPart<F> {
    /// The part was made.
    Made(Part<F>),
    /// A file at this path already exists.
    Taken,
    /// The part can't be made.
    Refused,
}

/// Makes a part at this path. Doesn't open a file that exists.
fn part_at<R: Files>(rt: &R, path: String) -> NewPart<R::File> {
    match OpenOptions::new()
        .write(true)
        .create_new(true)
        .open(rt, path.as_str())
    {
        Ok(file) => NewPart::Made(Part { file, path }),
        Err(error) if error.kind() == ErrorKind::AlreadyExists => NewPart::Taken,
        Err(_) => NewPart::Refused,
    }
}

/// Makes a part for the output at `path`: `PATH.part0`, or the next number up to 99 whose file doesn't exist. Returns
/// `None` if no part can be made, or if all of these files exist. Fails only if memory is refused.
fn new_part<R: Files + AllocGlobal>(
    rt: &R,
    path: &str,
) -> Result<Option<Part<R::File>>, AllocError> {
    // No file can have such a path, so there is nothing to replace.
    if path.is_empty() || path.ends_with('/') {
        return Ok(None);
    }
    for number in 0..MOST_PARTS {
        let part = format!(in rt.alloc(); "{path}.part{number}")?;
        match part_at(rt, part) {
            NewPart::Made(part) => return Ok(Some(part)),
            NewPart::Taken => {}
            NewPart::Refused => return Ok(None),
        }
    }
    Ok(None)
}

/// Sets the permissions of a part to those of the file that it replaces, if both have the same owner and group. Returns
/// whether the permissions were set.
fn take_permissions<F: OpenFile>(part: &F, old: &Metadata) -> bool {
    let Ok(new) = part.metadata() else {
        return false;
    };
    let is_same = new.uid() == old.uid() && new.gid() == old.gid();
    is_same && part.set_permissions(old.permissions()).is_ok()
}

/// Makes a part with the owner, the group and the permissions of the file that it replaces. Returns `None` if no part
/// can be made, or if these can't be set; then the part is removed. Fails only if memory is refused.
fn part_like<R: Files + AllocGlobal>(
    rt: &R,
    path: &str,
    old: &Metadata,
) -> Result<Option<Part<R::File>>, AllocError> {
    let Some(part) = new_part(rt, path)? else {
        return Ok(None);
    };
    if take_permissions(&part.file, old) {
        return Ok(Some(part));
    }
    // An empty part that can't be removed remains.
    let _ = fs::remove_file(rt, part.path.as_str());
    Ok(None)
}

impl<F: OpenFile + std::io::Write + Drop> WholeFile<F> {
    /// Returns an output that is written into `file`: a part, whose path is `part`, or the output itself, in place. The
    /// sink's count of failures is 0.
    fn new(file: LateFile<F>, part: Option<String>) -> WholeFile<F>
        ensures { ⟦<FileSink<F> as Sink>⟧.failures result.sink ≡ 0 }
    {
        WholeFile {
            sink: WriterSink::new(file),
            part,
        }
    }

    /// Renames the part, if there is one, to the output. Must be called after all bytes were written, with the path
    /// that was passed to [`create_whole`].
    ///
    /// # Errors
    ///
    /// [`Write`](WriteError::Write) if the part can't be renamed. Then the output is unchanged, and the part is removed
    /// if it can be removed.
    pub fn finish<R: Files>(self, rt: &R, path: &str) -> Result<(), WriteError> {
        let WholeFile { sink: _, part } = self;
        let Some(part) = part else {
            return Ok(());
        };
        if fs::rename(rt, part.as_str(), path).is_ok() {
            return Ok(());
        }
        // A part that can't be removed remains.
        let _ = fs::remove_file(rt, part.as_str());
        Err(WriteError::Write)
    }

    /// Removes the part, if there is one. Must be called if not all bytes were written. An output that is written in
    /// place keeps the bytes that were written.
    pub fn abandon<R: Files>(self, rt: &R) {
        let WholeFile { sink: _, part } = self;
        if let Some(part) = part {
            // A part that can't be removed remains.
            let _ = fs::remove_file(rt, part.as_str());
        }
    }
}

/// Opens a plain file with one hard link. Its new bytes are written into a part, or in place if no part can be made.
/// The sink's count of failures is 0.
fn open_replaceable<R: Files + AllocGlobal>(
    rt: &R,
    path: &str,
    old: &Metadata,
) -> Result<WholeFile<R::File>, FileError>
    ensures { IfOk result (λ file. ⟦<FileSink<R::File> as Sink>⟧.failures file.sink ≡ 0) }
{
    // Even if a part replaces the file, the file must be writable.
    let Ok(file) = OpenOptions::new().write(true).open(rt, path) else {
        return Err(FileError::open(rt.alloc(), path));
    };
    let most = most_file_bytes(rt);
    match part_like(rt, path, old) {
        Ok(Some(part)) => Ok(WholeFile::new(LateFile::new(part.file, most), Some(part.path))),
        Ok(None) => Ok(WholeFile::new(LateFile::new(file, most), None)),
        Err(AllocError) => Err(FileError::Memory),
    }
}

/// Opens an output. A plain file with one hard link keeps its bytes until [`finish`](WholeFile::finish), and a new file
/// gets its name then. Any other output is written in place, as by [`create_file`]: a symbolic link, a file with
/// several hard links, a device or a pipe. A file for which no part with its owner, group and permissions can be made
/// is written in place, too. The sink's count of failures is 0.
pub fn create_whole<R: Files + AllocGlobal>(
    rt: &R,
    path: &str,
) -> Result<WholeFile<R::File>, FileError>
    ensures { IfOk result (λ file. ⟦<FileSink<R::File> as Sink>⟧.failures file.sink ≡ 0) }
{
    let part = match fs::symlink_metadata(rt, path) {
        Ok(old) if old.is_file() && old.nlink() == 1 => return open_replaceable(rt, path, &old),
        Err(error) if error.kind() == ErrorKind::NotFound => new_part(rt, path)?,
        // Any other output isn't replaced.
        _ => None,
    };
    match part {
        Some(part) => {
            let file = LateFile::new(part.file, most_file_bytes(rt));
            Ok(WholeFile::new(file, Some(part.path)))
        }
        None => Ok(WholeFile::new(create_file(rt, path)?, None)),
    }
}
