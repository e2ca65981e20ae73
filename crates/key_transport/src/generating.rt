//! Keys generated from random bytes.
ghost use Rattle.std.specs.Prelude.{◌≡◌, ◌≤◌, IsSome, IfOk, Err, OnOk, Some, true, drop, take};
ghost use Rattle.std.specs.Option.{option_copied};
ghost use Rattle.key_cells.specs.Lease.{bench_of, holding};
ghost use Rattle.device_cells.specs.Faults.{Rose};
ghost use Rattle.key_transport.specs.Changes.{ChangesKeys};
ghost use Rattle.key_tokens.specs.Denotes.{denoted};
ghost use Rattle.cca_vectors.specs.declared.key_length.Length.TheVariants.{Unique};
ghost use Rattle.cca_vectors.specs.DefaultVectors.{size_of};
ghost use Rattle.cca_vectors.specs.Vectors.{length_of};
ghost use Rattle.master_registers.specs.Loaded.{Loaded};
ghost use Rattle.master_registers.specs.Masters.{Masters};
ghost use Rattle.verb_rules.specs.Keys.{keys_of};
ghost use Rattle.key_transport.specs.Generated.{AreGiven, Draws, DrawsBytes, DrawsKey, Generates, HasKeyLength, HasLength, HaveLength, form_of_name, generated_tokens, generated_vector, is_operational, transport_key, vector_for};
ghost use Rattle.key_transport.specs.declared.generating.GenerateFault.TheVariants.{Failed, Repeated};
ghost use Rattle.key_transport.specs.Tokens.{as_current, key_with};
ghost use Rattle.key_transport.specs.UniqueHalves.{is_same_half};

use crate::writing::write_under;
use cca_vectors::{KeyType, Length, Vector, default_of, default_of_size};
use device_cells::Entropy;
use key_cells::{KeyPlace, Lease};
use master_registers::Registers;
use thiserror::Error;
use verb_rules::{Judged, set_odd_parity, write_current};

/// Where generated keys go: an operational key is under the current master key, a key that is exported is under an
/// EXPORTER key, and a key that is to be imported is under an IMPORTER key.
#[derive(Clone, Copy, Debug, PartialEq, Eq)]
pub enum Form {
    /// One operational key.
    Op,
    /// An operational key, and the same key exported.
    Opex,
    /// An operational key, and the same key to be imported.
    Opim,
    /// A key to be imported, and the same key exported.
    Imex,
    /// A key exported under one key and under another.
    Exex,
    /// A key to be imported under one key and under another.
    Imim,
}

impl Form {
    /// The form with this name, in capitals; none where the text is no name of a form.
    pub fn read(text: &[u8]) -> Option<Form>
        ensures { result ≡ form_of_name text.now }
    {
        if text == b"OP".as_slice() {
            Some(Form::Op)
        } else if text == b"OPEX".as_slice() {
            Some(Form::Opex)
        } else if text == b"OPIM".as_slice() {
            Some(Form::Opim)
        } else if text == b"IMEX".as_slice() {
            Some(Form::Imex)
        } else if text == b"EXEX".as_slice() {
            Some(Form::Exex)
        } else if text == b"IMIM".as_slice() {
            Some(Form::Imim)
        } else {
            None
        }
    }
}

/// The tokens of generated keys: of one key or of two.
#[derive(Clone, Copy, Debug, PartialEq, Eq)]
pub struct Generated {
    pub first: [u8; 64],
    pub second: Option<[u8; 64]>,
}

/// Why no key was generated.
#[derive(Clone, Copy, Debug, PartialEq, Eq, Error)]
pub enum GenerateFault {
    /// The random source failed.
    #[error("the random source failed")]
    Failed,
    /// Each of eight right halves was the same as the left one, the low-order bit of each byte aside.
    #[error("eight right halves were the same as the left one")]
    Repeated,
}

impl From<device_cells::Failed> for GenerateFault {
    ghost from_gives = { λ _ fault. fault ≡ Failed };

    fn from(_: device_cells::Failed) -> GenerateFault {
        GenerateFault::Failed
    }
}

/// How many right halves are drawn for a left one at most.
const RIGHT_HALVES: usize = 8;

/// Whether the halves of a key are the same, the low-order bit of each byte aside.
fn has_same_halves(key: &[u8; 16]) -> bool
    ensures { result ≡ is_same_half (take 8 key.now) (drop 8 key.now) }
{
    for i in 0..8 {
        if key[i] / 2 != key[8 + i] / 2 {
            return false;
        }
    }
    true
}

/// Draws a key with unique halves: both halves, and the right one again while it is the same as the left one. The eighth
/// right half is the last.
fn fill_unique<E: Entropy>(key: &mut [u8; 16], entropy: &mut E) -> Result<(), GenerateFault>
    ensures drawn { OnOk result
        (DrawsBytes Unique (E.left entropy.old) (E.left entropy.new) key.new) }
    ensures repeated { result ≡ Err Repeated
        → Draws Unique (E.left entropy.old) (E.left entropy.new) true }
    ensures later { E.faults entropy.old ≤ E.faults entropy.new }
    ensures failed { result ≡ Err Failed → Rose (E.faults entropy.old) (E.faults entropy.new) }
    ensures quiet { (result ≡ Err Failed → ⊥) → E.faults entropy.new ≡ E.faults entropy.old }
{
    entropy.fill(key)?;
    for _again in 1..RIGHT_HALVES {
        if !has_same_halves(key) {
            return Ok(());
        }
        entropy.fill(&mut key[8..])?;
    }
    if has_same_halves(key) {
        return Err(GenerateFault::Repeated);
    }
    Ok(())
}

/// Puts the random bytes of a key of a length into the first bytes of a place.
fn fill_bytes<E: Entropy>(
    place: &mut [u8; 16],
    length: Length,
    entropy: &mut E,
) -> Result<(), GenerateFault>
    ensures drawn { OnOk result
        (DrawsBytes length (E.left entropy.old) (E.left entropy.new) place.new) }
    ensures repeated { result ≡ Err Repeated
        → Draws length (E.left entropy.old) (E.left entropy.new) true }
    ensures later { E.faults entropy.old ≤ E.faults entropy.new }
    ensures failed { result ≡ Err Failed → Rose (E.faults entropy.old) (E.faults entropy.new) }
    ensures quiet { (result ≡ Err Failed → ⊥) → E.faults entropy.new ≡ E.faults entropy.old }
{
    match length {
        Length::Eight => entropy.fill(&mut place[..8])?,
        Length::Sixteen => entropy.fill(place)?,
        Length::Unique => fill_unique(place, entropy)?,
    }
    Ok(())
}

/// Puts a key of a length, made of random bytes, with odd parity into the first bytes of a place.
fn fill_key<E: Entropy>(
    place: &mut [u8; 16],
    length: Length,
    entropy: &mut E,
) -> Result<(), GenerateFault>
    ensures drawn { OnOk result
        (DrawsKey length (E.left entropy.old) (E.left entropy.new) place.new) }
    ensures repeated { result ≡ Err Repeated
        → Draws length (E.left entropy.old) (E.left entropy.new) true }
    ensures later { E.faults entropy.old ≤ E.faults entropy.new }
    ensures failed { result ≡ Err Failed → Rose (E.faults entropy.old) (E.faults entropy.new) }
    ensures quiet { (result ≡ Err Failed → ⊥) → E.faults entropy.new ≡ E.faults entropy.old }
{
    fill_bytes(place, length, entropy)?;
    set_odd_parity(&mut place[..length.size()]);
    Ok(())
}

/// The same of the place `Key`.
fn draw_key<E: Entropy>(
    lease: &mut Lease,
    length: Length,
    entropy: &mut E,
) -> Result<(), GenerateFault>
    ensures drawn { let place = (bench_of lease.new).key in
        OnOk result (DrawsKey length (E.left entropy.old) (E.left entropy.new) place) }
    ensures repeated { result ≡ Err Repeated
        → Draws length (E.left entropy.old) (E.left entropy.new) true }
    ensures later { E.faults entropy.old ≤ E.faults entropy.new }
    ensures failed { result ≡ Err Failed → Rose (E.faults entropy.old) (E.faults entropy.new) }
    ensures quiet { (result ≡ Err Failed → ⊥) → E.faults entropy.new ≡ E.faults entropy.old }
    ensures stays { lease.new
        ≡ holding lease.old (record (bench_of lease.old) { key = (bench_of lease.new).key }) }
{
    fill_key(lease.key_mut(KeyPlace::Key), length, entropy)
}

/// The control vector of a type that has so many bytes.
pub fn vector_for(kind: KeyType, size: usize) -> Vector
    requires { HasLength kind size }
    ensures vector { result ≡ vector_for kind size }
    ensures length { length_of result ≡ size }
    ensures short { size ≤ 16 }
{
    default_of_size(kind, size).unwrap()
}

/// The control vector of a type that has this length.
fn generated_vector(kind: KeyType, length: Length) -> Vector
    requires { HasKeyLength kind length }
    ensures vector { result ≡ generated_vector kind length }
    ensures length { length_of result ≡ size_of length }
{
    default_of(kind, length).unwrap()
}

/// Writes the tokens of a form for the key in the place `Key`, which has this length.
fn write_tokens(
    lease: &mut Lease,
    held: &Registers,
    form: Form,
    length: Length,
    first: KeyType,
    second: KeyType,
    one: Option<&Judged>,
    two: Option<&Judged>,
) -> Generated
    requires current { IsSome held.now.current_pattern }
    requires lengths { HaveLength form first second length }
    requires transports { AreGiven form (option_copied one) (option_copied two) }
    ensures tokens { let bench = bench_of lease.old in
        (m : Masters) → Loaded m held.now bench
        → result ≡ generated_tokens m form (transport_key bench (option_copied one.entry))
        (transport_key bench (option_copied two.entry))
        (key_with bench (generated_vector first length))
        (key_with bench (generated_vector second length)) }
    ensures operational { let bench = bench_of lease.old in
        (m : Masters) → Loaded m held.now bench → is_operational form ≡ true
        → denoted (keys_of m) result.first
        ≡ Some (as_current (key_with bench (generated_vector first length))) }
    ensures stays { ChangesKeys lease.old lease.new }
{
    match form {
        Form::Op => Generated {
            first: write_current(lease, held, &generated_vector(first, length)),
            second: None,
        },
        Form::Opex | Form::Opim => {
            let operational = write_current(lease, held, &generated_vector(first, length));
            let external = write_under(lease, two.unwrap(), &generated_vector(second, length));
            Generated {
                first: operational,
                second: Some(external),
            }
        }
        Form::Imex | Form::Exex | Form::Imim => {
            let external = write_under(lease, one.unwrap(), &generated_vector(first, length));
            let other = write_under(lease, two.unwrap(), &generated_vector(second, length));
            Generated {
                first: external,
                second: Some(other),
            }
        }
    }
}

/// Draws a key of a length, gives it odd parity, and writes the tokens of a form: of the first type and, where the form has
/// a second key, of the second type for the same clear key. An internal token is under the current master key; an external
/// first token is under the clear key of `one`, and the second token under that of `two`.
///
/// Of a key with unique halves the right half is drawn again while it is the same as the left one when the low-order bit of
/// each byte is left out; the eighth right half is the last, and `Repeated` says that it was the same too. What is thrown
/// away is overwritten in the place `Key`.
///
/// Only the places `First` and `Key` and the schedules of the lease change. After `Failed` nothing is known of the random
/// bytes still to come.
pub fn generate<E: Entropy>(
    lease: &mut Lease,
    held: &Registers,
    form: Form,
    length: Length,
    first: KeyType,
    second: KeyType,
    one: Option<&Judged>,
    two: Option<&Judged>,
    entropy: &mut E,
) -> Result<Generated, GenerateFault>
    requires current { IsSome held.now.current_pattern }
    requires lengths { HaveLength form first second length }
    requires transports { AreGiven form (option_copied one) (option_copied two) }
    ensures generated { IfOk result
        (Generates held.now (bench_of lease.old) form length first second
        (option_copied one.entry) (option_copied two.entry)
        (E.left entropy.old) (E.left entropy.new)) }
    ensures repeated { result ≡ Err Repeated
        → Draws length (E.left entropy.old) (E.left entropy.new) true }
    ensures later { E.faults entropy.old ≤ E.faults entropy.new }
    ensures failed { result ≡ Err Failed → Rose (E.faults entropy.old) (E.faults entropy.new) }
    ensures quiet { (result ≡ Err Failed → ⊥) → E.faults entropy.new ≡ E.faults entropy.old }
    ensures stays { ChangesKeys lease.old lease.new }
{
    match draw_key(lease, length, entropy) {
        Ok(()) => Ok(write_tokens(lease, held, form, length, first, second, one, two)),
        Err(fault) => Err(fault),
    }
}
