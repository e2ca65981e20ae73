//! A disk in memory, which can show what a stop after any of its calls may have left.
ghost use Rattle.std.specs.Prelude.{◌≡◌, ◌+◌, ◌<◌, ◌≤◌, ◌↔◌, [], length, replicate, take, slice_get, slice_range, None, Some, IfSome, IfOk, OnOk, OnErr, IsErr, IsTrue};
ghost use Rattle.device_cells.specs.Cells.{body_size};
ghost use Rattle.slot_disk.specs.DiskState.{blank_image, new_disk, refuses_call, after_noted};
ghost use Rattle.slot_disk.specs.FaultPlan.{fails_now, after_call, with_failing};
ghost use Rattle.device_cells.specs.Faults.{HasCause};
ghost use Rattle.slot_disk.specs.LogMedium.{medium_of};
ghost use Rattle.device_cells.specs.Medium.{Told, IsSettled, After, Becomes, EachImage, Keeps};
ghost use Rattle.device_cells.specs.Ranges.{SameOutside, HoldsPiece};
ghost use Rattle.slot_disk.specs.Stages.{Stage, noting, stage, IsTorn};
ghost use Rattle.slot_disk.specs.TornImage.{torn_image, torn_over};

use crate::call::{Call, Piece, overwrite_at, overwrite_vec, wipe_calls};
use crate::fault_plan::FaultPlan;
use device_cells::{BODY_LEN, Disk, Failed, NoMemory};
use std::alloc::Global;
use std::marker::Model;

/// What a stop makes of each range that was written since the last sync.
#[derive(Clone, Copy, Debug, PartialEq, Eq)]
pub enum Torn {
    /// The bytes of the last sync.
    Old,
    /// The bytes that were written.
    New,
    /// This byte throughout.
    Fill(u8),
}

/// A disk in memory. It notes each write and each sync that succeeds, as many as it has room for.
#[derive(Drop)]
pub struct MemoryDisk {
    first: Vec<u8>,
    content: Vec<u8>,
    calls: Vec<Call>,
    room: usize,
    plan: FaultPlan,
}

// Clauses see the image that it began with, the calls that it noted, its room for them, and the plan
// of faults.
impl Model for MemoryDisk {
    ghost use Rattle.std.specs.Prelude.{◌≡◌};
    ghost use Rattle.std.specs.Vec.{vec_len, vec_capacity};
    ghost use Rattle.slot_disk.specs.DiskState.{DiskState, IsDisk};

    ghost Value = { DiskState };

    ghost view = { λ d. record {
      first = d.first.items;
      calls = d.calls.items;
      room = d.room;
      plan = d.plan;
    } };

    ghost invariant = { λ d.
        IsDisk d.first.items d.content.items d.calls.items d.room (vec_capacity d.calls) };
}

impl MemoryDisk {
    /// A disk of zeros with room to note so many writes and syncs.
    pub fn new(alloc: Global, size: u64, calls: u64) -> Result<MemoryDisk, NoMemory>
        ensures disk { IfOk result (λ d. d ≡ new_disk (blank_image size) calls) }
        ensures size { IfOk result (λ d. length d.first ≡ size) }
        ensures settled { IfOk result (λ d. IsSettled (medium_of d)) }
    {
        let mut image = Vec::new(alloc);
        image.resize(size as usize, 0)?;
        MemoryDisk::from_image(alloc, &image, calls)
    }

    /// A disk that holds this image, with nothing unsynced.
    pub fn from_image(alloc: Global, image: &[u8], calls: u64) -> Result<MemoryDisk, NoMemory>
        ensures disk { IfOk result (λ d. d ≡ new_disk image.now calls) }
        ensures settled { IfOk result (λ d. IsSettled (medium_of d)) }
    {
        Ok(MemoryDisk {
            first: Vec::from_slice(alloc, image)?,
            content: Vec::from_slice(alloc, image)?,
            calls: Vec::with_capacity(alloc, calls as usize)?,
            room: calls as usize,
            plan: FaultPlan::new(),
        })
    }

    /// How many writes and syncs it has noted.
    pub fn noted(&self) -> u64
        ensures { result ≡ length self.now.calls }
    {
        self.calls.len() as u64
    }

    /// A call that it noted, counted from 0: a write of these bytes from a place on, or a sync, for which there is `None`.
    pub fn call(&self, number: usize) -> Option<(usize, &[u8])>
        requires { number < length self.now.calls }
        ensures sync { result ≡ None → slice_get self.now.calls number ≡ Some Call.Synced }
        ensures write { IfSome result (λ w.
            slice_get self.now.calls number ≡ Some (Call.Written w.0 w.1.now)) }
        ensures short { IfSome result (λ w. length w.1.now ≤ body_size) }
    {
        match &self.calls[number] {
            Call::Written(at, piece) => Some((*at, piece.bytes())),
            Call::Synced => None,
        }
    }

    /// Forgets the calls that it noted, and wipes their bytes: the disk begins anew with what it holds, of which nothing is
    /// unsynced.
    pub fn begin_anew(&mut self)
        ensures disk { self.new ≡ record self.old {
          first = (stage self.old.first self.old.calls).content;
          calls = [];
        } }
        ensures size { length self.new.first ≡ length self.old.first }
        ensures settled { IsSettled (medium_of self.new) }
        ensures content { (medium_of self.new).content ≡ (medium_of self.old).content }
    {
        make_calls(&self.calls, &mut self.first);
        wipe_calls(&mut self.calls);
        self.calls.clear();
    }

    /// Zeroes all that it holds, and the bytes of the calls that it noted, which it forgets.
    pub fn wipe(&mut self)
        ensures { self.new ≡ record self.old {
          first = blank_image (length self.old.first);
          calls = [];
        } }
    {
        zero(&mut self.first);
        zero(&mut self.content);
        wipe_calls(&mut self.calls);
        self.calls.clear();
    }

    /// Makes the read, write or sync of this number fail, counted from 0. It keeps the last eight
    /// numbers.
    pub fn fail_at(&mut self, call: u64)
        ensures { self.new ≡ record self.old { plan = with_failing self.old.plan call } }
    {
        self.plan.fail_at(call);
    }

    /// The disk that a stop leaves after its first `noted` noted calls.
    pub fn crash(
        &self,
        alloc: Global,
        noted: u64,
        torn: Torn,
        calls: u64,
    ) -> Result<MemoryDisk, NoMemory>
        requires { noted ≤ length self.now.calls }
        ensures disk { IfOk result (λ d. d ≡ new_disk
            (torn_image torn (stage self.now.first (take noted self.now.calls))) calls) }

        ensures size { IfOk result (λ d. length d.first ≡ length self.now.first) }
        ensures settled { IfOk result (λ d. IsSettled (medium_of d)) }

        // It is one of the images of that moment.
        ensures image { IfOk result (λ d.
            IsTorn (stage self.now.first (take noted self.now.calls)) d.first) }
    {
        let mut content = Vec::from_slice(alloc, &self.first)?;
        let mut image = Vec::from_slice(alloc, &self.first)?;
        replay(
            &self.calls.as_slice()[..noted as usize],
            torn,
            &mut content,
            &mut image,
        );
        MemoryDisk::from_image(alloc, &image, calls)
    }
}

fn zero(bytes: &mut Vec<u8>)
    ensures { bytes.new.items ≡ replicate (length bytes.old.items) 0 }
{
    bytes.fill(0);
}

// Makes the calls on an image.
fn make_calls(calls: &[Call], image: &mut Vec<u8>)
    ensures { image.new.items ≡ (stage image.old.items calls.now).content }
{
    for call in calls {
        make_call(call, image);
    }
}

fn make_call(call: &Call, image: &mut Vec<u8>)
    ensures { (s : Stage) → image.old.items ≡ s.content
        → image.new.items ≡ (noting s call.now).content }
{
    if let Call::Written(at, piece) = call {
        overwrite_vec(image, *at, piece.bytes());
    }
}

// Makes the calls over again. `content` becomes what a read gives after them, and `image` what a
// stop leaves.
fn replay(calls: &[Call], torn: Torn, content: &mut [u8], image: &mut [u8])
    requires { image.old ≡ content.old }
    ensures { image.new ≡ torn_image torn (stage content.old calls.now) }
{
    for call in calls {
        replay_call(call, torn, content, image);
    }
}

fn replay_call(call: &Call, torn: Torn, content: &mut [u8], image: &mut [u8])
    requires { length image.old ≡ length content.old }
    ensures content { (s : Stage) → content.old ≡ s.content
        → content.new ≡ (noting s call.now).content }
    ensures image { (s : Stage) → content.old ≡ s.content → image.old ≡ torn_image torn s
        → image.new ≡ torn_image torn (noting s call.now) }
{
    match call {
        Call::Written(at, piece) => {
            let bytes = piece.bytes();
            overwrite_at(content, *at, bytes);
            tear(image, *at, bytes, torn);
        }
        Call::Synced => image.copy_from_slice(content),
    }
}

fn tear(image: &mut [u8], at: usize, bytes: &[u8], torn: Torn)
    requires { length bytes.now ≤ body_size }
    ensures { image.new ≡ torn_over torn image.old at bytes.now }
{
    match torn {
        Torn::Old => {}
        Torn::New => overwrite_at(image, at, bytes),
        Torn::Fill(byte) => {
            let filled = [byte; BODY_LEN];
            overwrite_at(image, at, &filled[..bytes.len()]);
        }
    }
}

impl Disk for MemoryDisk {
    ghost medium = { λ d. medium_of d };

    ghost faults = { λ d. d.plan.faults };

    fn size(&self) -> u64 {
        self.first.len() as u64
    }

    fn read(&mut self, at: u64, out: &mut [u8]) -> Result<(), Failed>
        requires { at + length out.old ≤ length self.old.first }
        ensures bytes { OnOk result (Told (medium_of self.old) (λ c.
            out.new ≡ slice_range c at (at + length out.new))) }
        ensures keeps { Keeps (medium_of self.old) (medium_of self.new) }
        ensures cause { HasCause self.old.plan.faults self.new.plan.faults result }
        ensures quiet { OnOk result (self.new.plan.faults ≡ self.old.plan.faults) }

        // exactly which reads fail, and what they leave
        ensures fails { IsErr result ↔ IsTrue (fails_now self.old.plan) }
        ensures disk { self.new ≡ record self.old { plan = after_call self.old.plan } }
        ensures untouched { OnErr result (out.new ≡ out.old) }
    {
        if self.plan.next_call() {
            return Err(Failed);
        }
        let at = at as usize;
        out.copy_from_slice(&self.content[at..at + out.len()]);
        Ok(())
    }

    fn write(&mut self, at: u64, piece: &[u8]) -> Result<(), Failed>
        requires within { at + length piece.now ≤ length self.old.first }
        requires short { length piece.now ≤ body_size }
        ensures bytes { OnOk result
            (Becomes (HoldsPiece at piece.now) (medium_of self.old) (medium_of self.new)) }
        ensures outside { Becomes (SameOutside at (length piece.now))
            (medium_of self.old) (medium_of self.new) }
        ensures moments { EachImage (medium_of self.old) (medium_of self.new)
            (After (SameOutside at (length piece.now))
            (IsTorn (stage self.old.first self.old.calls))) }
        ensures cause { HasCause self.old.plan.faults self.new.plan.faults result }
        ensures quiet { OnOk result (self.new.plan.faults ≡ self.old.plan.faults) }

        // exactly which writes fail, and what each leaves
        ensures fails { IsErr result ↔ IsTrue (refuses_call self.old) }
        ensures disk { self.new ≡ after_noted self.old (Call.Written at piece.now) }
    {
        let has_room = self.calls.len() < self.room;
        if self.plan.next_call_in_room(has_room) {
            return Err(Failed);
        }
        let at = at as usize;
        self.calls
            .push_reserved(Call::Written(at, Piece::new(piece)));
        overwrite_vec(&mut self.content, at, piece);
        Ok(())
    }

    fn sync(&mut self) -> Result<(), Failed>
        ensures settled { OnOk result (IsSettled (medium_of self.new)) }
        ensures content { (medium_of self.new).content ≡ (medium_of self.old).content }
        ensures moments { EachImage (medium_of self.old) (medium_of self.new)
            (IsTorn (stage self.old.first self.old.calls)) }
        ensures cause { HasCause self.old.plan.faults self.new.plan.faults result }
        ensures quiet { OnOk result (self.new.plan.faults ≡ self.old.plan.faults) }

        // exactly which syncs fail, and what each leaves
        ensures fails { IsErr result ↔ IsTrue (refuses_call self.old) }
        ensures disk { self.new ≡ after_noted self.old Call.Synced }
    {
        let has_room = self.calls.len() < self.room;
        if self.plan.next_call_in_room(has_room) {
            return Err(Failed);
        }
        self.calls.push_reserved(Call::Synced);
        Ok(())
    }
}
