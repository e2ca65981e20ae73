//! The adapters over streams.
use slot_disk::{Entropy, Failed, Sink, Source, StreamEntropy, StreamSink, StreamSource};
use std::io;
use std::io::{ErrorKind, Read, Write};

/// What a stream does at a call.
#[derive(Clone, Copy, Debug, Drop)]
enum Turn {
    Give(&'static [u8]),
    Take(usize),
    Fail,
    End,
}

/// A stream that does these things, one a call, and fails behind them. It counts its flushes, and
/// keeps the first bytes that it took.
#[derive(Drop)]
struct Scripted {
    turns: &'static [Turn],
    at: usize,
    flushes: u8,
    flush_fails: bool,
    taken: [u8; 8],
    held: usize,
}

impl Scripted {
    fn new(turns: &'static [Turn]) -> Scripted {
        Scripted {
            turns,
            at: 0,
            flushes: 0,
            flush_fails: false,
            taken: [b'.'; 8],
            held: 0,
        }
    }

    fn next(&mut self) -> Turn {
        let turn = self.turns.get(self.at).copied().unwrap_or(Turn::Fail);
        self.at = self.at.saturating_add(1);
        turn
    }
}

impl Read for Scripted {
    fn read(&mut self, buf: &mut [u8]) -> io::Result<usize> {
        match self.next() {
            Turn::Give(bytes) => {
                let count = bytes.len().min(buf.len());
                buf[..count].copy_from_slice(&bytes[..count]);
                Ok(count)
            }
            Turn::End => Ok(0),
            _ => Err(ErrorKind::BrokenPipe.into()),
        }
    }
}

impl Write for Scripted {
    fn write(&mut self, buf: &[u8]) -> io::Result<usize> {
        match self.next() {
            Turn::Take(most) => {
                let count = most.min(buf.len());
                for byte in &buf[..count] {
                    if let Some(place) = self.taken.get_mut(self.held) {
                        *place = *byte;
                    }
                    self.held = self.held.saturating_add(1);
                }
                Ok(count)
            }
            Turn::End => Ok(0),
            _ => Err(ErrorKind::BrokenPipe.into()),
        }
    }

    fn flush(&mut self) -> io::Result<()> {
        self.flushes = self.flushes.saturating_add(1);
        if self.flush_fails {
            return Err(ErrorKind::BrokenPipe.into());
        }
        Ok(())
    }
}

/// What each read answers, and the bytes that it leaves.
const READ: [(Result<usize, Failed>, &[u8; 3]); 7] = [
    (Ok(2), b"ab."),
    (Ok(1), b"c.."),
    (Err(Failed), b"..."),
    (Ok(2), b"de."),
    (Ok(0), b"..."),
    (Ok(1), b"f.."),
    (Err(Failed), b"..."),
];

/// Each read of a stream that gives bytes in pieces, fails in their midst and ends.
#[test]
fn a_stream_is_read(rt: HostRuntime) {
    const TURNS: &[Turn] = &[
        Turn::Give(b"ab"),
        Turn::Give(b"c"),
        Turn::Fail,
        Turn::Give(b"de"),
        Turn::End,
        Turn::Give(b"f"),
    ];
    let mut source = StreamSource::new(Scripted::new(TURNS));
    for (want, bytes) in READ {
        let mut out = *b"...";
        let read = source.read(&mut out);
        assert!(rt; read == want && out == *bytes);
    }
}

/// What is written, and what each write answers.
const WRITTEN: [(&[u8; 2], Result<usize, Failed>); 5] = [
    (b"ab", Ok(1)),
    (b"cd", Ok(2)),
    (b"ef", Err(Failed)),
    (b"gh", Err(Failed)),
    (b"ij", Ok(2)),
];

/// Each write to a stream that takes a part, nothing, or fails.
#[test]
fn a_stream_is_written(rt: HostRuntime) {
    const TURNS: &[Turn] = &[
        Turn::Take(1),
        Turn::Take(9),
        Turn::Fail,
        Turn::End,
        Turn::Take(2),
    ];
    let mut stream = Scripted::new(TURNS);
    {
        let mut sink = StreamSink::new(&mut stream);
        for (piece, want) in WRITTEN {
            assert!(rt; sink.write(piece) == want);
        }
    }
    assert!(rt; stream.taken == *b"acdij..." && stream.flushes == 4);
    stream.flush_fails = true;
    stream.at = 0;
    let mut sink = StreamSink::new(&mut stream);
    assert!(rt; sink.write(b"kl") == Err(Failed));
}

/// What each fill answers, and the bytes that it leaves.
const FILLED: [(Result<(), Failed>, &[u8; 3]); 5] = [
    (Ok(()), b"abc"),
    (Ok(()), b"efg"),
    (Err(Failed), b"hi."),
    (Err(Failed), b"j.."),
    (Ok(()), b"klm"),
];

/// Each fill of three bytes from a stream: whole over its pieces, and failed where it ends or fails.
#[test]
fn a_stream_fills(rt: HostRuntime) {
    const TURNS: &[Turn] = &[
        Turn::Give(b"abcd"),
        Turn::Give(b"e"),
        Turn::Give(b"fg"),
        Turn::Give(b"hi"),
        Turn::End,
        Turn::Give(b"j"),
        Turn::Fail,
        Turn::Give(b"klm"),
    ];
    let mut entropy = StreamEntropy::new(Scripted::new(TURNS));
    for (want, bytes) in FILLED {
        let mut out = *b"...";
        let filled = entropy.fill(&mut out);
        assert!(rt; filled == want && out == *bytes);
    }
}
