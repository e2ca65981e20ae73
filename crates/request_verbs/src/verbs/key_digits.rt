//! Clear key bytes that a field of a request spells, put straight into the workbench: they lie nowhere else.
ghost use Rattle.std.specs.Prelude.{◌≡◌, ◌≤◌, ◌/◌, ◌++◌, IsTrue, drop, length};
ghost use Rattle.key_cells.specs.Bench.{key_of, with_key};
ghost use Rattle.key_cells.specs.Lease.{bench_of, holding};
ghost use Rattle.verb_script.specs.Grammar.{accepts, hex_text};
ghost use Rattle.verb_script.specs.Values.{hex_value};

use key_cells::{KeyPlace, Lease};
use verb_script::decode;

/// Puts the bytes that the digits spell before the others.
fn put_digits(digits: &[u8], key: &mut [u8; 16])
    requires digits { IsTrue (accepts hex_text digits.now) }
    requires room { length digits.now ≤ 32 }
    ensures key { key.new ≡ hex_value digits.now ++ drop (length digits.now / 2) key.old }
    ensures size { length (hex_value digits.now) ≡ length digits.now / 2 }
{
    decode(digits, &mut key[..digits.len() / 2]);
}

/// Puts the clear key bytes that the digits spell, 16 at most, into a place of the workbench. What lies behind them in the
/// place stays.
pub(super) fn put_key(digits: &[u8], place: KeyPlace, lease: &mut Lease)
    requires digits { IsTrue (accepts hex_text digits.now) }
    requires room { length digits.now ≤ 32 }
    ensures key { lease.new ≡ holding lease.old (with_key (bench_of lease.old) place
        (hex_value digits.now
        ++ drop (length digits.now / 2) (key_of (bench_of lease.old) place))) }
    ensures size { length (hex_value digits.now) ≡ length digits.now / 2 }
{
    put_digits(digits, lease.key_mut(place));
}
