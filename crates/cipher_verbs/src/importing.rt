//! A clear key imported.
ghost use Rattle.std.specs.Prelude.{◌≡◌, IsSome, Some, slice_index};
ghost use Rattle.key_cells.specs.Lease.{bench_of};
ghost use Rattle.key_tokens.specs.Denotes.{denoted};
ghost use Rattle.master_registers.specs.Loaded.{Loaded};
ghost use Rattle.master_registers.specs.Masters.{Masters};
ghost use Rattle.multi_encipher.specs.Bundles.{ChangesSchedules};
ghost use Rattle.verb_rules.specs.Keys.{keys_of, token_for};
ghost use Rattle.cipher_verbs.specs.Imported.{data_vector, imported_key};

use cca_vectors::{Vector, vector_of};
use key_cells::Lease;
use master_registers::Registers;
use verb_rules::write_current;

/// The control vector of a single-length DATA key.
fn data_vector() -> Vector
    ensures { result ≡ data_vector }
{
    vector_of(&[0, 0, 0x7d, 0, 3, 0, 0, 0, 0, 0, 0, 0, 0, 0, 0, 0]).unwrap()
}

/// The internal token, under the current master key, of the first 8 bytes of the place `Key` as a DATA key. Only the
/// schedules of the lease change.
pub fn clear_key_import(lease: &mut Lease, held: &Registers) -> [u8; 64]
    requires { IsSome held.now.current_pattern }
    ensures token { (m : Masters) → Loaded m held.now (bench_of lease.old)
        → result ≡ token_for (keys_of m) (imported_key (bench_of lease.old).key) }
    ensures denoted { (m : Masters) → Loaded m held.now (bench_of lease.old)
        → denoted (keys_of m) result ≡ Some (imported_key (bench_of lease.old).key) }
    ensures flag { slice_index result 6 ≡ 0xc0 }
    ensures stays { ChangesSchedules lease.old lease.new }
{
    let vector = data_vector();
    write_current(lease, held, &vector)
}
