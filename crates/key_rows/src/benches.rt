//! Callers: a place that is written changes alone, every exit leaves a blank bench, and a guarded array
//! ends as zeros.
ghost use Rattle.std.specs.Prelude.{◌≡◌, replicate};
ghost use Rattle.key_cells.specs.Bench.{blank_bench, with_key};
ghost use Rattle.key_cells.specs.Lease.{bench_of, holding};

use key_cells::{KeyPlace, Lease, MasterPlace, Secret, Workbench};

// Each place of a master key with the byte that marks it.
const MASTERS: [(MasterPlace, u8); 4] = [
    (MasterPlace::Current, 1),
    (MasterPlace::Old, 2),
    (MasterPlace::New, 3),
    (MasterPlace::Part, 4),
];

// The same of the places of keys.
const KEYS: [(KeyPlace, u8); 4] = [
    (KeyPlace::First, 5),
    (KeyPlace::Second, 6),
    (KeyPlace::Key, 7),
    (KeyPlace::Fresh, 8),
];

// Writes the place Key alone.
fn put_key(lease: &mut Lease, bytes: &[u8; 16])
    ensures { lease.new ≡ holding lease.old (with_key (bench_of lease.old) KeyPlace.Key bytes.now) }
{
    *lease.key_mut(KeyPlace::Key) = *bytes;
}

// Works on a lease, and gives up where the first byte is zero: on each exit the bench is blank.
fn last_byte(bench: &mut Workbench, bytes: &[u8; 16]) -> Option<u8>
    ensures { bench.new ≡ blank_bench }
{
    let mut lease = Lease::open(bench);
    put_key(&mut lease, bytes);
    if lease.key(KeyPlace::Key)[0] == 0 {
        return None;
    }
    Some(lease.key(KeyPlace::Key)[15])
}

// The sum of a secret's first and last byte. The lent array ends as zeros.
fn ends_of(bytes: &mut [u8; 8]) -> u16
    ensures { bytes.new ≡ replicate 8 0 }
{
    let secret = Secret::guard(bytes);
    secret.byte(0) as u16 + secret.byte(7) as u16
}

// Writes its mark into each place.
fn put_marks(lease: &mut Lease) {
    for (place, mark) in MASTERS {
        *lease.master_mut(place) = [mark; 24];
    }
    for (place, mark) in KEYS {
        *lease.key_mut(place) = [mark; 16];
    }
    lease.schedules_mut()[2].groups[127] = 63;
    *lease.body_mut() = [64; 192];
}

// Puts a text, of which two bytes are left.
fn put_text(lease: &mut Lease) {
    lease.set_text_length(3);
    lease.text_mut().copy_from_slice(&[65, 66, 67]);
    lease.set_text_length(2);
}

// Whether each place holds these bits of its mark.
fn has_marks(lease: &Lease, bits: u8) -> bool {
    for (place, mark) in MASTERS {
        if *lease.master(place) != [mark & bits; 24] {
            return false;
        }
    }
    for (place, mark) in KEYS {
        if *lease.key(place) != [mark & bits; 16] {
            return false;
        }
    }
    lease.schedules()[2].groups[127] == 63 & bits && lease.body()[191] == 64 & bits
}

#[test]
fn places_are_apart_and_end_as_zeros(rt: HostRuntime) {
    let mut bench = Workbench::new();
    {
        let mut lease = Lease::open(&mut bench);
        put_marks(&mut lease);
        put_text(&mut lease);
        assert!(rt; has_marks(&lease, 0xff));
        assert!(rt; lease.text() == [65, 66].as_slice());
    }
    let mut lease = Lease::open(&mut bench);
    lease.set_text_length(3);
    assert!(rt; has_marks(&lease, 0));
    assert!(rt; lease.text() == [0; 3].as_slice());
}

#[test]
fn each_exit_leaves_a_blank_bench(rt: HostRuntime) {
    let mut bench = Workbench::new();
    assert!(rt; last_byte(&mut bench, &[9; 16]) == Some(9));
    assert!(rt; last_byte(&mut bench, &[0; 16]) == None);
    bench.wipe();
    let lease = Lease::open(&mut bench);
    assert!(rt; *lease.key(KeyPlace::Key) == [0; 16]);
}

#[test]
fn a_guarded_array_ends_as_zeros(rt: HostRuntime) {
    let mut bytes = [1, 2, 3, 4, 5, 6, 7, 8];
    assert!(rt; ends_of(&mut bytes) == 9);
    assert!(rt; bytes == [0; 8]);
}
