//! The command `serve`.
ghost use Rattle.std.specs.Prelude.{◌≡◌, IfOk};
ghost use Rattle.program_jobs.specs.Served.{IsImageFor, link_of, options_of};

use crate::fault::Fault;
use adapter_server::{ServeOptions, serve};
use eeprom::{Image, WORDS};
use mdic_phy::Link;
use pcap_bench::{ServeImage, ServeJob, ServeLink};
use program_files::{LateFile, StandardOutput, open_record, read_front, read_player, store};
use std::alloc::AllocError;
use std::fs::File;
use std::io::{BufReader, BufWriter};
use step_schedules::Player;

/// The number of bytes of a file with the words of an EEPROM.
const IMAGE_BYTES: usize = 128;

/// Returns the link of a server's options, from the link that a job asks for.
fn link_of(link: ServeLink) -> Link
    ensures { result ≡ link_of link }
{
    match link {
        ServeLink::After(ticks) => Link::After(ticks),
        ServeLink::Never => Link::Never,
    }
}

/// Returns the image in these bytes, the low byte of each word first; `None` if there aren't 128 bytes.
fn image_in(bytes: &[u8]) -> Option<Image> {
    if bytes.len() != IMAGE_BYTES {
        return None;
    }
    let mut words = [0; WORDS];
    for place in 0..WORDS {
        words[place] = u16::from_le_bytes([bytes[2 * place], bytes[2 * place + 1]]);
    }
    Some(Image::from_words(words))
}

/// Returns the image of the EEPROM that the job asks for. Fails if the file can't be read, or doesn't have 128 bytes
/// (E58). The clause states nothing about an image from a file.
fn image_of(rt: &HostRuntime, image: ServeImage<'_>) -> Result<Image, Fault>
    ensures { IfOk result (IsImageFor image.entry) }
{
    let path = match image {
        ServeImage::Address(address) => return Ok(Image::with_address(address)),
        ServeImage::File(path) => path,
    };
    // One byte more shows that the file is too long.
    let bytes = read_front(rt, path, IMAGE_BYTES as u64 + 1)?;
    match image_in(bytes.as_slice()) {
        Some(image) => Ok(image),
        None => Err(Fault::Image),
    }
}

/// Returns the options of the server, from the job and the image of the EEPROM.
fn options_of(job: &ServeJob<'_>, image: Image) -> ServeOptions
    ensures { result ≡ options_of job.now image }
{
    ServeOptions {
        memory: job.memory,
        registers: job.registers,
        image,
        link: link_of(job.link),
        receive_kilobytes: job.receive_kilobytes,
        seed: job.seed,
        missed: job.missed,
    }
}

/// Reads requests from standard input, and writes their answers to standard output. Fails if memory is refused, or if a
/// read or a write fails; the contract of [`serve`] states what is written then. Returns the player after the last
/// request; `None` if `player` is `None`.
fn serve_input(
    rt: &HostRuntime,
    options: &ServeOptions,
    player: Option<Player>,
) -> Result<Option<Player>, Fault> {
    let alloc = rt.alloc();
    let Ok(input) = BufReader::new(alloc, rt.reader()) else {
        return Err(Fault::from(AllocError));
    };
    let Ok(mut output) = BufWriter::new(alloc, StandardOutput::new(rt)) else {
        return Err(Fault::from(AllocError));
    };
    match serve(alloc, options, player, input, &mut output) {
        Ok(left) => Ok(left),
        Err(error) => Err(Fault::from(error)),
    }
}

/// Fails (E71) if a deviation of the schedule wasn't met: requests ended before the access or the request of the
/// deviation.
fn find_unmet(rt: &HostRuntime, player: &Player) -> Result<(), Fault> {
    let unmet = player.agenda.unmet(rt.alloc())?;
    if unmet.is_empty() {
        Ok(())
    } else {
        Err(Fault::Unmet(unmet))
    }
}

/// Stores the recorded schedule if there is a file for it, with the adapter's options. `words` are the words of the
/// command line, which contain these options. Fails if the schedule can't be stored, or as [`find_unmet`] does.
fn finish(
    rt: &HostRuntime,
    words: &[String],
    record: &mut Option<LateFile<File>>,
    player: &Player,
) -> Result<(), Fault> {
    if let Some(file) = record {
        store(rt.alloc(), file, words, player)?;
    }
    find_unmet(rt, player)
}

/// Opens the file for a recorded schedule, if the job names one, and serves with this player. After the last request,
/// does what [`finish`] does. A job that names such a file has a player, so without a player there is nothing to store.
fn serve_with(
    rt: &HostRuntime,
    words: &[String],
    job: &ServeJob<'_>,
    options: &ServeOptions,
    player: Option<Player>,
) -> Result<(), Fault> {
    let mut record = open_record(rt, job)?;
    match serve_input(rt, options, player)? {
        Some(player) => finish(rt, words, &mut record, &player),
        None => Ok(()),
    }
}

/// Runs `serve`. `words` are the words of the program, from which the job was read. After the last request, stores a
/// recorded schedule. Fails if deviations weren't met.
pub fn run_serve(rt: &HostRuntime, words: &[String], job: &ServeJob<'_>) -> Result<(), Fault> {
    let options = options_of(job, image_of(rt, job.image)?);
    let player = read_player(rt, job)?;
    serve_with(rt, words, job, &options, player)
}
