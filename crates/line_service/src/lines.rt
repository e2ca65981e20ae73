//! Lines of a source of bytes.
ghost use Rattle.std.specs.Prelude.{◌≡◌, ℕ, ◌+◌, ◌-◌, ◌<◌, ◌≤◌, ◌↔◌, false, IsTrue, List, [], ◌++◌, length, take, drop, vec_len, vec_capacity, IfOk, OnOk, OnErr};
ghost use Rattle.std.specs.Io.{ReadsAtMost};
ghost use Rattle.std.specs.Io.KnownBytes.{IsAtEnd, Keeps, ReadConsumes};
ghost use Rattle.memchr.specs.Find.{IsFirstByte, is_byte};
ghost use Rattle.device_cells.specs.Faults.{Rose, HasCause};
ghost use Rattle.device_cells.specs.WhereTold.{WhereTold};
ghost use Rattle.line_service.specs.Lines.{NoNewline};
ghost use Rattle.line_service.specs.Reading.{Reading, input_limit, blank, IsReady, Takes, Shows, Advances, KeepsPart, given};
ghost use Rattle.line_service.specs.declared.lines.Taken.{Taken as AnyTaken};
ghost use Rattle.line_service.specs.Gathering.{line_room, IsBounded, Moves, Refills, Gathering, cut_of, Judges};

use device_cells::{Failed, NoMemory, Source};
use key_cells::put_front;
use memchr::memchr;
use std::alloc::Global;
use std::marker::Model;
use thiserror::Error;

/// The longest line that is answered, in bytes, its newline not counted.
pub const LINE_LIMIT: usize = 9_216;

/// How many bytes are taken from a source at most.
pub const INPUT_LIMIT: u64 = 1 << 40;

// The bytes of one read of the source.
const READ_LIMIT: usize = 8_192;

// One byte more than a line may have shows that it is too long.
const LINE_ROOM: usize = LINE_LIMIT + 1;

// The chunk has room for one read, and for the part of a line that was taken before a fault.
const CHUNK: usize = LINE_ROOM;

const NEWLINE: u8 = b'\n';

/// What a call of `read_line` took.
#[derive(Clone, Copy, Debug, PartialEq, Eq)]
pub enum Taken {
    /// A line, which `LineBuffer::line` shows.
    Line,
    /// A line of more than `LINE_LIMIT` bytes, to its newline or the end. It isn't kept.
    TooLong,
    /// Nothing: the source gave its end, and no byte of a line is left.
    End,
}

/// Why `read_line` took no line.
#[derive(Clone, Copy, Debug, PartialEq, Eq, Error)]
pub enum LineFault {
    /// The source failed.
    #[error("the source failed")]
    ReadFault,
    /// `INPUT_LIMIT` bytes were taken, and no whole line of them is left.
    #[error("the limit of the input is reached")]
    InputLimit,
}

/// The line that was taken last, and the bytes taken from a source that belong to later lines.
///
/// Clauses see it as a `Reading`. A read of the source brings up to 8,192 bytes, so it serves many
/// lines. Each byte is looked at once and copied once, from the chunk to the line. Where a read fails
/// inside a line, the part that was taken goes back to the chunk.
#[derive(Drop)]
pub struct LineBuffer {
    chunk: Vec<u8>,
    // The bytes of the chunk from `start` to `end` are pending.
    start: usize,
    end: usize,
    // Up to `LINE_ROOM` bytes, for which the memory is there.
    line: Vec<u8>,
    ended: bool,
    taken: u64,
}

impl Model for LineBuffer {
    ghost use Rattle.line_service.specs.Reading.{Reading};

    ghost Value = { Reading };

    ghost use Rattle.line_service.specs.Inside.{reading_of, IsSound};

    ghost view = { reading_of };

    ghost invariant = { IsSound };
}

impl LineBuffer {
    /// A buffer that has taken nothing, with all the memory that it will use.
    pub fn new(alloc: Global) -> Result<LineBuffer, NoMemory>
        ensures { IfOk result (λ buffer. buffer ≡ blank) }
    {
        let chunk = vec![in alloc; 0; CHUNK]?;
        let line = Vec::with_capacity(alloc, LINE_ROOM)?;
        Ok(LineBuffer {
            chunk,
            start: 0,
            end: 0,
            line,
            ended: false,
            taken: 0,
        })
    }

    /// The line that the last call of `read_line` took, without its newline. It is empty where that
    /// call took none.
    pub fn line(&self) -> &[u8]
        ensures { result.now ≡ self.now.line }
    {
        self.line.as_slice()
    }

    /// Drops the bytes that the buffer holds, and counts the bytes taken from 0 again.
    pub fn clear(&mut self)
        ensures { self.new ≡ blank }
    {
        self.start = 0;
        self.end = 0;
        self.line.clear();
        self.ended = false;
        self.taken = 0;
    }

    // Moves pending bytes to the line, up to their first newline, which goes. Answers whether there
    // was one.
    fn move_part(&mut self) -> bool
        ensures { Moves result self.old self.new }
    {
        match self.find_newline() {
            Some(at) => {
                self.keep(at);
                self.skip_newline();
                true
            }
            None => {
                let count = self.pending_len();
                self.keep(count);
                false
            }
        }
    }

    // Where the first newline stands in the pending bytes.
    fn find_newline(&self) -> Option<usize>
        ensures { IsFirstByte (is_byte 10) self.now.pending result }
    {
        memchr(NEWLINE, &self.chunk.as_slice()[self.start..self.end])
    }

    // How many bytes are pending.
    fn pending_len(&self) -> usize
        ensures { result ≡ length self.now.pending }
    {
        self.end - self.start
    }

    // Drops the first pending byte.
    fn skip_newline(&mut self)
        requires { 0 < length self.old.pending }
        ensures { self.new ≡ record self.old { pending = drop 1 self.old.pending } }
    {
        self.start += 1;
    }

    // Moves the first pending bytes to the line, of which `LINE_ROOM` bytes are kept.
    fn keep(&mut self, count: usize)
        requires { count ≤ length self.old.pending }
        ensures { self.new ≡ record self.old {
          line = take line_room (self.old.line ++ take count self.old.pending);
          pending = drop count self.old.pending;
        } }
    {
        let kept = count.min(LINE_ROOM - self.line.len());
        append(
            &mut self.line,
            &self.chunk.as_slice()[self.start..self.start + kept],
        );
        self.start += count;
    }

    // Reads once from the source. The bytes are pending then.
    fn refill<S: Source>(&mut self, source: &mut S) -> Result<(), Failed>
        requires used { self.old.pending ≡ [] }
        requires going { self.old.ended ≡ false }
        requires room { self.old.taken < input_limit }
        ensures ok { OnOk result
            (Refills (S.left source.old) (S.left source.new) self.old self.new) }
        ensures kept { OnErr result (Keeps (S.left source.old) (S.left source.new)) }
        ensures same { OnErr result (self.new ≡ self.old) }
        ensures cause { HasCause (S.faults source.old) (S.faults source.new) result }
    {
        let room = (READ_LIMIT as u64).min(INPUT_LIMIT - self.taken) as usize;
        self.start = 0;
        self.end = 0;
        let count = read_front(source, self.chunk.as_mut_slice(), room)?;
        self.end = count;
        self.taken += count as u64;
        self.ended = count == 0;
        Ok(())
    }

    fn has_ended(&self) -> bool
        ensures { result ≡ self.now.ended }
    {
        self.ended
    }

    fn is_full(&self) -> bool
        ensures { IsTrue result ↔ (self.now.taken ≡ input_limit) }
    {
        self.taken == INPUT_LIMIT
    }

    // Empties the line.
    fn drop_line(&mut self)
        ensures dropped { self.new ≡ record self.old { line = [] } }
        ensures bounded { IsBounded self.new }
    {
        self.line.clear();
    }

    // Makes the line pending again.
    fn put_back(&mut self)
        requires { self.old.pending ≡ [] }
        ensures back { self.new ≡ record self.old { line = []; pending = self.old.line } }
        ensures bounded { IsBounded self.new }
    {
        let count = self.line.len();
        put_front(self.chunk.as_mut_slice(), self.line.as_slice());
        self.start = 0;
        self.end = count;
        self.line.clear();
    }

    // What was gathered: a line that ended at a newline, or what stood before the end.
    fn judge(&mut self, whole: bool) -> Taken
        ensures { Judges whole result self.old self.new }
    {
        if self.line.len() > LINE_LIMIT {
            self.line.clear();
            Taken::TooLong
        } else if !whole && self.line.is_empty() {
            Taken::End
        } else {
            Taken::Line
        }
    }
}

/// Takes the next line from the bytes ahead: those that are pending in the buffer, and then those
/// that the source has left.
///
/// A read is made only when no whole line is pending, and none is made once the source gave its end
/// or `INPUT_LIMIT` bytes were taken, until `clear`. After an error the part of a line that was
/// taken is pending, so that a later call takes the whole line; of one that is too long its first
/// 9,217 bytes are kept. A call reads the source once for 8,192 bytes, and moves each byte once.
pub fn read_line<S: Source>(source: &mut S, buffer: &mut LineBuffer) -> Result<Taken, LineFault>
    // Where a source gave its end since the last `clear`, the source handed in has no byte left.
    requires { IsTrue buffer.old.ended → IsAtEnd (S.left source.old) }

    // The first line of the bytes ahead is taken, and the others are ahead then.
    ensures answer { IfOk result (λ taken.
        WhereTold (S.left source.old) (S.left source.new) (λ before after.
        Takes taken (buffer.old.pending ++ before) buffer.new (buffer.new.pending ++ after))) }
    ensures shown { IfOk result (λ taken. Shows taken buffer.new) }
    ensures advances { IfOk result (λ taken. Advances taken buffer.old buffer.new) }
    ensures end { WhereTold (S.left source.old) (S.left source.new) (λ before after.
        (result ≡ Ok Taken.End) ↔ (IsTrue buffer.new.ended × (buffer.old.pending ++ before ≡ []))) }

    // When the source is read, and how many bytes are taken from it.
    ensures ready { IsReady buffer.old → source.new ≡ source.old }
    ensures ended { IsTrue buffer.old.ended → IsTrue buffer.new.ended }
    ensures ends { result ≡ Ok Taken.End → IsTrue buffer.new.ended }
    ensures at_end { IsTrue buffer.new.ended → IsAtEnd (S.left source.new) }
    ensures counted { WhereTold (S.left source.old) (S.left source.new) (λ before after.
        buffer.new.taken + length after ≡ buffer.old.taken + length before) }
    ensures within { buffer.new.taken ≤ input_limit }
    ensures early { IsTrue buffer.new.ended → buffer.new.taken < input_limit }

    // Why no line was taken, and what an error leaves.
    ensures fault { result ≡ Err LineFault.ReadFault
        → Rose (S.faults source.old) (S.faults source.new) }
    ensures later { S.faults source.old ≤ S.faults source.new }

    // No fault is passed over: where none is answered, the source counted none.
    ensures quiet { (result ≡ Err LineFault.ReadFault → ⊥)
        → S.faults source.new ≡ S.faults source.old }
    ensures limit { WhereTold (S.left source.old) (S.left source.new) (λ before after.
        (result ≡ Err LineFault.InputLimit) ↔ ((buffer.new.taken ≡ input_limit)
        × NoNewline (buffer.old.pending ++ given before after))) }
    ensures full { result ≡ Err LineFault.InputLimit → buffer.new.taken ≡ input_limit }
    ensures short { result ≡ Err LineFault.ReadFault → buffer.new.taken < input_limit }
    ensures emptied { OnErr result (buffer.new ≡ record blank {
      pending = buffer.new.pending;
      taken = buffer.new.taken;
    }) }
    ensures kept { OnErr result (WhereTold (S.left source.old) (S.left source.new) (λ before after.
        KeepsPart (buffer.old.pending ++ before) buffer.new.pending after)) }
{
    buffer.drop_line();
    match gather(source, buffer) {
        Ok(whole) => Ok(buffer.judge(whole)),
        Err(fault) => {
            buffer.put_back();
            Err(fault)
        }
    }
}

/// After an error a later call takes what one would have taken without it: what it takes of the bytes
/// that are ahead then it takes of those that were ahead before.
pub fn a_fault_loses_no_byte_of_a_line()
    ensures { (ahead kept rest later : List ℕ) (taken : AnyTaken) (now : Reading)
        → KeepsPart ahead kept rest → Takes taken (kept ++ rest) now later
        → Takes taken ahead now later }
{}

// Gathers the next line, and answers whether a newline ended it. Where none did, the source gave its
// end.
fn gather<S: Source>(source: &mut S, buffer: &mut LineBuffer) -> Result<bool, LineFault>
    requires at_end { IsTrue buffer.old.ended → IsAtEnd (S.left source.old) }
    requires empty { buffer.old.line ≡ [] }
    requires bounded { IsBounded buffer.old }
    ensures gathered { Gathering (cut_of result)
        (S.left source.old) (S.left source.new) buffer.old buffer.new }
    ensures end { result ≡ Ok false → IsTrue buffer.new.ended × (buffer.new.pending ≡ []) }
    ensures going { OnErr result ((buffer.new.ended ≡ false) × (buffer.new.pending ≡ [])) }
    ensures full { result ≡ Err LineFault.InputLimit → buffer.new.taken ≡ input_limit }
    ensures short { result ≡ Err LineFault.ReadFault → buffer.new.taken < input_limit }
    ensures fault { result ≡ Err LineFault.ReadFault
        → Rose (S.faults source.old) (S.faults source.new) }
    ensures later { S.faults source.old ≤ S.faults source.new }
    ensures quiet { (result ≡ Err LineFault.ReadFault → ⊥)
        → S.faults source.new ≡ S.faults source.old }
    ensures ready { IsReady buffer.old → source.new ≡ source.old }
{
    'parts: loop {
        if buffer.move_part() {
            return Ok(true);
        }
        if buffer.has_ended() {
            return Ok(false);
        }
        if buffer.is_full() {
            return Err(LineFault::InputLimit);
        }
        match buffer.refill(source) {
            Ok(()) => {}
            Err(_) => return Err(LineFault::ReadFault),
        }
    }
}

// Appends the bytes, for which the memory is there.
fn append(line: &mut Vec<u8>, bytes: &[u8])
    requires { vec_len line.old + length bytes.now ≤ vec_capacity line.old }
    ensures items { line.new.items ≡ line.old.items ++ bytes.now }
    ensures memory { vec_capacity line.old ≤ vec_capacity line.new }
{
    line.extend_from_slice(bytes).unwrap();
}

// Reads into the front of the chunk.
fn read_front<S: Source>(source: &mut S, chunk: &mut [u8], room: usize) -> Result<usize, Failed>
    requires some { 0 < room }
    requires within { room ≤ length chunk.old }
    ensures bound { IfOk result (λ count. count ≤ room) }
    ensures size { length chunk.new ≡ length chunk.old }
    ensures bytes { ReadConsumes (S.left source.old) (S.left source.new) result chunk.new }
    ensures cause { HasCause (S.faults source.old) (S.faults source.new) result }
{
    source.read(&mut chunk[..room])
}
