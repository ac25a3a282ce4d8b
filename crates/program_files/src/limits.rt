//! The limits that the system sets for the process: of the size of a file, of the stack, and of all memory.
//!
//! Linux has them in files, and also the size of the memory that the process has mapped. If such a file can't be read,
//! the program assumes that there is no limit.

ghost use Rattle.std.specs.Prelude.{◌≤◌, length};

use std::io::Read;
use std::rt::Files;
use std::{fs, str};
use text::{DECIMAL, number_in_radix};
use thiserror::Error;

/// The file with the limits of the process. Each limit is a line with a name, the limit, and its maximum.
const LIMITS_FILE: &str = "/proc/self/limits";

/// The bytes of [`LIMITS_FILE`] that are read; it has about 1,300.
const LIMITS_BYTES: usize = 4096;

/// The limit of the size of a file, RLIMIT_FSIZE of Linux.
const FILE_SIZE: &str = "Max file size";

/// The limit of the stack, RLIMIT_STACK of Linux.
const STACK_SIZE: &str = "Max stack size";

/// The limit of all memory of the process, RLIMIT_AS of Linux.
const ALL_MEMORY: &str = "Max address space";

/// The file that begins with the number of pages of memory that the process has mapped.
const PAGES_FILE: &str = "/proc/self/statm";

/// The bytes of [`PAGES_FILE`] that are read. They contain the number.
const PAGES_BYTES: usize = 64;

/// The bytes of a page.
const PAGE_BYTES: usize = 4096;

/// The path whose metadata are those of standard output.
const OUTPUT_FILE: &str = "/dev/stdout";

/// The file with the position and the flags of standard output, each on a line after its name.
const OUTPUT_STATE_FILE: &str = "/proc/self/fdinfo/1";

/// The bytes of [`OUTPUT_STATE_FILE`] that are read. They contain its first two lines.
const OUTPUT_STATE_BYTES: usize = 128;

/// The radix of the flags.
const OCTAL: u32 = 8;

/// The flag of a file whose writes begin at its end, O_APPEND of Linux.
const APPENDS: u64 = 0o2000;

/// The pages of stack that the program may use: 256 KiB.
const STACK_PAGES: u32 = 64;

/// The bytes of memory that must be left for these pages, with what else the calls that take them use.
const STACK_ROOM: u64 = 320 << 10;

/// The smallest limit of the stack with which the program runs. Its words and its environment are on the stack, too:
/// Linux accepts up to 128 KiB of them, or a quarter of the limit if that is more.
const LEAST_STACK_LIMIT: u64 = 384 << 10;

/// Why the program may need more stack than there is.
#[derive(Clone, Copy, Debug, PartialEq, Eq, Error)]
pub enum StackShortage {
    /// The limit of the stack is too small.
    #[error("the limit of the stack is below 384 KiB (ulimit -s)")]
    Limit,
    /// The limit of all memory is too small for the stack.
    #[error("the limit of memory is too small for 320 KiB of stack (ulimit -v)")]
    Memory,
}

/// Reads the beginning of a file, at most as many bytes as `room` has. Returns their number, which is 0 if the file
/// can't be opened. A failed read counts as the end of the file.
fn read_start<R: Files>(rt: &R, path: &str, room: &mut [u8]) -> usize
    ensures { result ≤ length room.new }
{
    let Ok(mut file) = fs::open(rt, path) else {
        return 0;
    };
    let mut done = 0;
    while done < room.len() {
        match file.read(&mut room[done..]) {
            Ok(count) if count > 0 => done += count,
            _ => return done,
        }
    }
    done
}

/// Returns the number that the first word of a text spells, or `None` for another word, such as `unlimited`.
fn first_number(text: &str, radix: u32) -> Option<u64>
    requires low { 2 ≤ radix }
    requires high { radix ≤ 36 }
{
    let word = text.trim().split(' ').next()?;
    number_in_radix(word, radix)
}

/// Returns the number after this name at the start of a line of a text. Returns `None` if no line begins with the name,
/// or if another word follows it.
fn number_after(text: &str, name: &str, radix: u32) -> Option<u64>
    requires low { 2 ≤ radix }
    requires high { radix ≤ 36 }
{
    for line in text.lines() {
        if let Some(rest) = line.strip_prefix(name) {
            return first_number(rest, radix);
        }
    }
    None
}

/// Returns a limit of the process, or `None` if there is none.
fn limit_of<R: Files>(rt: &R, name: &str) -> Option<u64> {
    let mut room = [0; LIMITS_BYTES];
    let count = read_start(rt, LIMITS_FILE, &mut room);
    number_after(str::from_utf8(&room[..count]).ok()?, name, DECIMAL)
}

/// Returns the maximum size in bytes of a file that the process writes, or `None` if there is no limit.
pub(crate) fn most_file_bytes<R: Files>(rt: &R) -> Option<u64> {
    limit_of(rt, FILE_SIZE)
}

/// Returns the bytes of memory that the process has mapped, or `None` if they aren't known.
fn mapped_bytes<R: Files>(rt: &R) -> Option<u64> {
    let mut room = [0; PAGES_BYTES];
    let count = read_start(rt, PAGES_FILE, &mut room);
    first_number(str::from_utf8(&room[..count]).ok()?, DECIMAL)?.checked_mul(PAGE_BYTES as u64)
}

/// Returns the place at which the next write to standard output begins, if standard output is a plain file; `None` if
/// it is another kind of file, or if the place isn't known.
pub(crate) fn output_end<R: Files>(rt: &R) -> Option<u64> {
    let metadata = fs::metadata(rt, OUTPUT_FILE).ok()?;
    if !metadata.is_file() {
        return None;
    }
    let mut room = [0; OUTPUT_STATE_BYTES];
    let count = read_start(rt, OUTPUT_STATE_FILE, &mut room);
    let text = str::from_utf8(&room[..count]).ok()?;
    if number_after(text, "flags:", OCTAL)? & APPENDS != 0 {
        return Some(metadata.len());
    }
    number_after(text, "pos:", DECIMAL)
}

/// Calls itself this many times, each time with a page on the stack, and then reads into the last page. So the system
/// provides the stack now. Later, the limit of all memory may be reached, and the system would end the process.
//
// A function with one large array doesn't do: the compiler may inline it into its caller. Then the array is on the stack
// for as long as the caller runs.
fn take_stack<R: Files>(rt: &R, pages: u32, above: &mut [u8]) {
    let mut room = [0; PAGE_BYTES];
    if pages == 0 {
        let _ = read_start(rt, PAGES_FILE, above);
    } else {
        take_stack(rt, pages - 1, &mut room);
    }
}

/// Checks that there is enough stack for the program. If all memory of the process is limited, also takes the stack's
/// part of it, so that no later allocation takes this part.
///
/// # Errors
///
/// The limit of the stack is too small, or that of all memory.
pub fn find_stack<R: Files>(rt: &R) -> Result<(), StackShortage> {
    if limit_of(rt, STACK_SIZE).is_some_and(|limit| limit < LEAST_STACK_LIMIT) {
        return Err(StackShortage::Limit);
    }
    let Some(most) = limit_of(rt, ALL_MEMORY) else {
        return Ok(());
    };
    let Some(mapped) = mapped_bytes(rt) else {
        return Ok(());
    };
    if most.saturating_sub(mapped) < STACK_ROOM {
        return Err(StackShortage::Memory);
    }
    take_stack(rt, STACK_PAGES, &mut []);
    Ok(())
}
