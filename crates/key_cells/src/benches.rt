//! The workbench: every clear key and text of a request.
ghost use Rattle.std.specs.Prelude.{◌≡◌, ◌≤◌, length};
ghost use Rattle.std.specs.Borrow.{sem};
ghost use Rattle.key_cells.specs.Bench.{blank_bench, key_of, master_of, text_of, with_size};

use crate::arrays::{front, front_mut, wipe, zeros};
use crate::places::{KeyPlace, MasterPlace};
use crate::schedules::{Schedule, blank_schedules, wipe_schedules};
use std::marker::Model;

/// Every clear key and text that a request works on. Contracts see it as a `Bench`, a record of its
/// places. But for [`Workbench::wipe`], the places are read and written through a lease.
#[derive(Drop)]
pub struct Workbench {
    current: [u8; 24],
    former: [u8; 24],
    coming: [u8; 24],
    part: [u8; 24],
    first: [u8; 16],
    second: [u8; 16],
    key: [u8; 16],
    fresh: [u8; 16],
    schedules: [Schedule; 3],
    body: [u8; 192],
    text: [u8; 4096],
    text_length: usize,
}

impl Model for Workbench {
    ghost use Rattle.std.specs.Prelude.{◌≤◌};
    ghost use Rattle.key_cells.specs.Bench.{Bench};

    ghost Value = { Bench };

    ghost view = { λ b. record {
      current = b.current;
      former = b.former;
      coming = b.coming;
      part = b.part;
      first = b.first;
      second = b.second;
      key = b.key;
      fresh = b.fresh;
      schedules = b.schedules;
      body = b.body;
      text = record { bytes = b.text; size = b.text_length };
    } };

    ghost invariant = { λ b. b.text_length ≤ 4096 };
}

impl Workbench {
    /// A bench of zeros.
    pub fn new() -> Workbench
        ensures { result ≡ blank_bench }
    {
        Workbench {
            current: zeros(),
            former: zeros(),
            coming: zeros(),
            part: zeros(),
            first: zeros(),
            second: zeros(),
            key: zeros(),
            fresh: zeros(),
            schedules: blank_schedules(),
            body: zeros(),
            text: zeros(),
            text_length: 0,
        }
    }

    /// Zeroes every byte of the bench, and makes the text's length 0.
    pub fn wipe(&mut self)
        ensures { self.new ≡ blank_bench }
    {
        wipe(&mut self.current);
        wipe(&mut self.former);
        wipe(&mut self.coming);
        wipe(&mut self.part);
        wipe(&mut self.first);
        wipe(&mut self.second);
        wipe(&mut self.key);
        wipe(&mut self.fresh);
        wipe_schedules(&mut self.schedules);
        wipe(&mut self.body);
        wipe(&mut self.text);
        self.text_length = 0;
    }
}

impl Workbench {
    ghost use Rattle.key_cells.specs.Lending.{LendsMaster, LendsKey, LendsSchedules, LendsBody, LendsText};

    /// A place of a master key.
    pub(crate) fn master(&self, place: MasterPlace) -> &[u8; 24]
        ensures { result.now ≡ master_of self.now place }
    {
        match place {
            MasterPlace::Current => &self.current,
            MasterPlace::Old => &self.former,
            MasterPlace::New => &self.coming,
            MasterPlace::Part => &self.part,
        }
    }

    /// A place of a master key, for writing.
    pub(crate) fn master_mut(&mut self, place: MasterPlace) -> &mut [u8; 24]
        ensures* writes_back { sem 𝓛 (LendsMaster self.entry place result) }
        ensures value { result.now ≡ master_of self.old place }
    {
        match place {
            MasterPlace::Current => &mut self.current,
            MasterPlace::Old => &mut self.former,
            MasterPlace::New => &mut self.coming,
            MasterPlace::Part => &mut self.part,
        }
    }

    /// A place of a key.
    pub(crate) fn key(&self, place: KeyPlace) -> &[u8; 16]
        ensures { result.now ≡ key_of self.now place }
    {
        match place {
            KeyPlace::First => &self.first,
            KeyPlace::Second => &self.second,
            KeyPlace::Key => &self.key,
            KeyPlace::Fresh => &self.fresh,
        }
    }

    /// A place of a key, for writing.
    pub(crate) fn key_mut(&mut self, place: KeyPlace) -> &mut [u8; 16]
        ensures* writes_back { sem 𝓛 (LendsKey self.entry place result) }
        ensures value { result.now ≡ key_of self.old place }
    {
        match place {
            KeyPlace::First => &mut self.first,
            KeyPlace::Second => &mut self.second,
            KeyPlace::Key => &mut self.key,
            KeyPlace::Fresh => &mut self.fresh,
        }
    }

    /// The three schedules.
    pub(crate) fn schedules(&self) -> &[Schedule; 3]
        ensures { result.now ≡ self.now.schedules }
    {
        &self.schedules
    }

    /// The three schedules, for writing.
    pub(crate) fn schedules_mut(&mut self) -> &mut [Schedule; 3]
        ensures* writes_back { sem 𝓛 (LendsSchedules self.entry result) }
        ensures value { result.now ≡ self.old.schedules }
    {
        &mut self.schedules
    }

    /// The body of a cell.
    pub(crate) fn body(&self) -> &[u8; 192]
        ensures { result.now ≡ self.now.body }
    {
        &self.body
    }

    /// The body of a cell, for writing.
    pub(crate) fn body_mut(&mut self) -> &mut [u8; 192]
        ensures* writes_back { sem 𝓛 (LendsBody self.entry result) }
        ensures value { result.now ≡ self.old.body }
    {
        &mut self.body
    }

    /// The text.
    pub(crate) fn text(&self) -> &[u8]
        ensures value { result.now ≡ text_of self.now.text }
        ensures size { length result.now ≡ self.now.text.size }
    {
        front(&self.text, self.text_length)
    }

    /// The text, for writing.
    pub(crate) fn text_mut(&mut self) -> &mut [u8]
        ensures* writes_back { sem 𝓛 (LendsText self.entry result) }
        ensures value { result.now ≡ text_of self.old.text }
        ensures size { length result.now ≡ self.old.text.size }
    {
        let length = self.text_length;
        front_mut(&mut self.text, length)
    }

    /// Gives the text another length, and changes no byte.
    pub(crate) fn set_text_length(&mut self, length: usize)
        requires { length ≤ 4096 }
        ensures { self.new ≡ with_size self.old length }
    {
        self.text_length = length;
    }
}
