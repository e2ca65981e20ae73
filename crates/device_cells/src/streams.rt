//! Sources and sinks over std's streams. What a real stream holds or does isn't told, so these say
//! nothing of bytes: they count each error, and this is where the proofs end.
ghost use Rattle.std.specs.Prelude.{◌≡◌, ◌<◌, ◌≤◌, length, None, IfSome};

use crate::faults::count_one;
use crate::{Entropy, Failed, Sink, Source};
use std::io::{Read, Write};

/// A source over a reader of std.
#[derive(Drop)]
pub struct StreamSource<R> {
    inner: R,
    faults: u64,
}

impl<R: Read> StreamSource<R> {
    pub fn new(inner: R) -> StreamSource<R>
        ensures { ⟦<StreamSource<R> as Source>⟧.faults result ≡ 0 }
    {
        StreamSource { inner, faults: 0 }
    }
}

impl<R: Read> Source for StreamSource<R> {
    ghost left = { λ _. None };

    ghost faults = { λ s. s.faults };

    fn read(&mut self, out: &mut [u8]) -> Result<usize, Failed> {
        match self.inner.read(out) {
            Ok(count) => Ok(count),
            Err(_) => {
                count_one(&mut self.faults);
                Err(Failed)
            }
        }
    }
}

/// A sink over a writer of std. It flushes after each write.
#[derive(Drop)]
pub struct StreamSink<W> {
    inner: W,
    faults: u64,
}

impl<W: Write> StreamSink<W> {
    pub fn new(inner: W) -> StreamSink<W>
        ensures { ⟦<StreamSink<W> as Sink>⟧.faults result ≡ 0 }
    {
        StreamSink { inner, faults: 0 }
    }
}

// One write and one flush. None is an error of either, and a write that took nothing of something.
fn write_through<W: Write>(writer: &mut W, piece: &[u8]) -> Option<usize>
    ensures bound { IfSome result (λ n. n ≤ length piece.now) }
    ensures some { IfSome result (λ n. 0 < length piece.now → 0 < n) }
{
    let count = writer.write(piece).ok()?;
    writer.flush().ok()?;
    if count == 0 && !piece.is_empty() {
        return None;
    }
    Some(count)
}

impl<W: Write> Sink for StreamSink<W> {
    ghost held = { λ _. None };

    ghost faults = { λ s. s.faults };

    fn write(&mut self, piece: &[u8]) -> Result<usize, Failed> {
        match write_through(&mut self.inner, piece) {
            Some(count) => Ok(count),
            None => {
                count_one(&mut self.faults);
                Err(Failed)
            }
        }
    }
}

/// Random bytes over a reader of std.
#[derive(Drop)]
pub struct StreamEntropy<R> {
    inner: R,
    faults: u64,
}

impl<R: Read> StreamEntropy<R> {
    pub fn new(inner: R) -> StreamEntropy<R>
        ensures { ⟦<StreamEntropy<R> as Entropy>⟧.faults result ≡ 0 }
    {
        StreamEntropy { inner, faults: 0 }
    }
}

// Fills the whole of it. None is an error, and the end of the stream.
fn read_whole<R: Read>(reader: &mut R, out: &mut [u8]) -> Option<()> {
    let mut filled = 0;
    while filled < out.len() {
        let count = reader.read(&mut out[filled..]).ok()?;
        if count == 0 {
            return None;
        }
        filled += count;
    }
    Some(())
}

impl<R: Read> Entropy for StreamEntropy<R> {
    ghost left = { λ _. None };

    ghost faults = { λ e. e.faults };

    fn fill(&mut self, out: &mut [u8]) -> Result<(), Failed> {
        match read_whole(&mut self.inner, out) {
            Some(()) => Ok(()),
            None => {
                count_one(&mut self.faults);
                Err(Failed)
            }
        }
    }
}
