//! A server of an adapter, whose reader is interrupted and then fails.

use adapter_server::{ServeError, ServeOptions, serve};
use std::io;
use std::io::{BufReader, Read};
use std::test::Fail;

/// A reader of a text. Every other read is interrupted, from the first one on. A read after the end of the text fails.
#[derive(Drop)]
struct Failing<'a> {
    text: &'a [u8],
    is_interrupted: bool,
}

impl io::Read for Failing<'_> {
    fn read(&mut self, buf: &mut [u8]) -> io::Result<usize> {
        self.is_interrupted = !self.is_interrupted;
        if self.is_interrupted {
            return Err(io::Error::from(io::ErrorKind::Interrupted));
        }
        if self.text.is_empty() {
            return Err(io::Error::from(io::ErrorKind::TimedOut));
        }
        self.text.read(buf)
    }
}

#[test]
fn interrupted_reads_are_tried_again_and_others_end_it(rt: HostRuntime) -> Result<(), Fail> {
    let options = ServeOptions::new();
    let failing = Failing {
        text: b"line\nendianness\nli",
        is_interrupted: false,
    };
    let input = BufReader::new(rt.alloc(), failing)?;
    let mut output = Vec::new(rt.alloc());
    let ended = serve(rt.alloc(), &options, None, input, &mut output);
    assert!(rt; ended.err() == Some(ServeError::Read));
    let wanted = b"OK 0x0000000000000000\nOK little\n";
    assert!(rt; output.as_slice() == wanted.as_slice());
    Ok(())
}
