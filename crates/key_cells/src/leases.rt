//! The one way to the places of the workbench.
ghost use Rattle.std.specs.Prelude.{◌≡◌, ◌≤◌, length};
ghost use Rattle.std.specs.Borrow.{sem};
ghost use Rattle.key_cells.specs.Bench.{blank_bench, key_of, master_of, text_of, with_size};

use crate::benches::Workbench;
use crate::places::{KeyPlace, MasterPlace};
use crate::schedules::Schedule;

/// The bench for the time of a request. When it is dropped every byte of the bench is zero and the
/// text's length is 0.
///
/// Contracts speak of it by two words: `bench_of lease` is the bench, and `holding lease bench` is the lease
/// with that bench.
pub struct Lease<'a> {
    bench: &'a mut Workbench,
}

impl<'a> Lease<'a> {
    ghost use Rattle.key_cells.specs.Lease.{bench_of, holding, loan_of, LendsMaster, LendsKey, LendsSchedules, LendsBody, LendsText};

    /// A lease of the bench, whose places stay as they are.
    pub fn open(bench: &'a mut Workbench) -> Lease<'a>
        ensures same_bench { loan_of result ≡ bench.entry.ghost_name }
        ensures places { bench_of result ≡ bench.old }
    {
        Lease { bench }
    }

    /// The 24 bytes of a master key's place.
    pub fn master(&self, place: MasterPlace) -> &[u8; 24]
        ensures { result.now ≡ master_of (bench_of self.now) place }
    {
        self.bench.master(place)
    }

    /// The 24 bytes of a master key's place, for writing.
    pub fn master_mut(&mut self, place: MasterPlace) -> &mut [u8; 24]
        ensures* writes_back { sem 𝓛 (LendsMaster self.entry place result) }
        ensures value { result.now ≡ master_of (bench_of self.old) place }
    {
        self.bench.master_mut(place)
    }

    /// The 16 bytes of a key's place.
    pub fn key(&self, place: KeyPlace) -> &[u8; 16]
        ensures { result.now ≡ key_of (bench_of self.now) place }
    {
        self.bench.key(place)
    }

    /// The 16 bytes of a key's place, for writing.
    pub fn key_mut(&mut self, place: KeyPlace) -> &mut [u8; 16]
        ensures* writes_back { sem 𝓛 (LendsKey self.entry place result) }
        ensures value { result.now ≡ key_of (bench_of self.old) place }
    {
        self.bench.key_mut(place)
    }

    /// The three schedules.
    pub fn schedules(&self) -> &[Schedule; 3]
        ensures { result.now ≡ (bench_of self.now).schedules }
    {
        self.bench.schedules()
    }

    /// The three schedules, for writing.
    pub fn schedules_mut(&mut self) -> &mut [Schedule; 3]
        ensures* writes_back { sem 𝓛 (LendsSchedules self.entry result) }
        ensures value { result.now ≡ (bench_of self.old).schedules }
    {
        self.bench.schedules_mut()
    }

    /// The 192 bytes of a cell's body.
    pub fn body(&self) -> &[u8; 192]
        ensures { result.now ≡ (bench_of self.now).body }
    {
        self.bench.body()
    }

    /// The 192 bytes of a cell's body, for writing.
    pub fn body_mut(&mut self) -> &mut [u8; 192]
        ensures* writes_back { sem 𝓛 (LendsBody self.entry result) }
        ensures value { result.now ≡ (bench_of self.old).body }
    {
        self.bench.body_mut()
    }

    /// The text, of its length.
    pub fn text(&self) -> &[u8]
        ensures value { result.now ≡ text_of (bench_of self.now).text }
        ensures size { length result.now ≡ (bench_of self.now).text.size }
    {
        self.bench.text()
    }

    /// The text, of its length, for writing.
    pub fn text_mut(&mut self) -> &mut [u8]
        ensures* writes_back { sem 𝓛 (LendsText self.entry result) }
        ensures value { result.now ≡ text_of (bench_of self.old).text }
        ensures size { length result.now ≡ (bench_of self.old).text.size }
    {
        self.bench.text_mut()
    }

    /// Makes the text's length another one, and changes no byte.
    pub fn set_text_length(&mut self, length: usize)
        requires { length ≤ 4096 }
        ensures { self.new ≡ holding self.old (with_size (bench_of self.old) length) }
    {
        self.bench.set_text_length(length);
    }
}

impl<'a> Drop for Lease<'a> {
    fn drop(self)
        ensures { self.exit.0.now ≡ blank_bench }
    {
        let Lease { bench } = self;
        bench.wipe();
    }
}
