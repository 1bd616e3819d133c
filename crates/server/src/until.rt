//! A reader that ends once a mark is set.

use crate::part::Streams;
use std::io;
use std::io::Read;
use std::sync::atomic::Ordering;

/// A reader of the lines of a live session, at its end once the session's mark is set.
#[derive(Drop)]
pub struct Until<'a, B> {
    reader: B,
    streams: &'a Streams,
}

impl<'a, B> Until<'a, B> {
    /// The lines of a reader, up to the mark of a session.
    pub fn new(reader: B, streams: &'a Streams) -> Until<'a, B> {
        Until { reader, streams }
    }
}

/// Whether the mark of a session is set.
fn is_over(streams: &Streams) -> bool {
    match &streams.end {
        Some(end) => end.load(Ordering::SeqCst),
        None => false,
    }
}

impl<B: Read> Read for Until<'_, B> {
    fn read(&mut self, buf: &mut [u8]) -> io::Result<usize> {
        if is_over(self.streams) {
            return Ok(0);
        }
        self.reader.read(buf)
    }
}
