//! A text enciphered and deciphered under a key, in the place of the text.
ghost use Rattle.std.specs.Prelude.{◌≡◌, ◌==◌, ◌≤◌, ◌%◌, [], None, Some, OnOk, OnErr, length};
ghost use Rattle.cca_vectors.specs.Checks.{first_failing};
ghost use Rattle.cca_vectors.specs.Vectors.{length_of};
ghost use Rattle.des_blocks.specs.Modes.{e, une};
ghost use Rattle.des_blocks.specs.Texts.{cbc_text, text_in, uncbc_text};
ghost use Rattle.key_cells.specs.Bench.{with_text};
ghost use Rattle.key_cells.specs.Lease.{bench_of};
ghost use Rattle.verb_rules.specs.declared.lengths.TextUse.{TextUse};
ghost use Rattle.verb_rules.specs.Keys.{HasHalves, opened};
ghost use Rattle.verb_rules.specs.LengthChecks.{text_checks};
ghost use Rattle.verb_rules.specs.Rules.{Judges};
ghost use Rattle.cipher_verbs.specs.CipherTexts.{ChangesText, cleared, deciphered_text, enciphered_text, enciphering, pad_checks};

use crate::padding::{Pad, pad_text, remove_padding};
use des_core::{cbc_decipher, cbc_decipher_single, cbc_encipher, cbc_encipher_single};
use key_cells::Lease;
use verb_rules::{Judged, Rule, TextUse, schedule_key};

/// The text of a lease has its length: a fact that contracts use.
fn text_has_length(lease: &Lease)
    ensures { length (text_in lease.now) ≡ (bench_of lease.now).text.size }
{
    let _text = lease.text();
}

/// Whether the clear key of a judged token has 8 bytes, as its control vector says. It is then used by DES alone.
/// Equal halves make no single-length key: the schedules aren't compared.
pub(crate) fn is_single(key: &Judged) -> bool
    ensures { result ≡ (length_of key.now.token.vector == 8) }
{
    key.token.vector.length() == 8
}

/// Enciphers a text of whole blocks, or of none, under the clear key of a judged internal token, in a chain from a
/// start, in place. Only the place `Key`, the schedules and the text of the lease change.
pub fn encipher_blocks(lease: &mut Lease, key: &Judged, start: &[u8; 8])
    requires halves { HasHalves key.now }
    requires whole { (bench_of lease.old).text.size % 8 ≡ 0 }
    ensures text { let clear = opened (bench_of lease.old) key.now in
        text_in lease.new
        ≡ cbc_text (e clear.key) start.now (text_in lease.old) }
    ensures size { (bench_of lease.new).text.size ≡ (bench_of lease.old).text.size }
    ensures stays { ChangesText lease.old lease.new }
{
    schedule_key(lease, key);
    if is_single(key) {
        cbc_encipher_single(lease, start);
    } else {
        cbc_encipher(lease, start);
    }
}

/// Enciphers the text under the clear key of a judged internal token, in a chain from a start, in place. The text is
/// padded to whole blocks first, where that is asked. Only the place `Key`, the schedules and the text of the lease
/// change.
pub fn encipher(lease: &mut Lease, key: &Judged, start: &[u8; 8], padding: Pad)
    requires halves { HasHalves key.now }
    requires length { first_failing
        (text_checks (enciphering padding) (bench_of lease.old).text.size) ≡ None }
    ensures text { let clear = opened (bench_of lease.old) key.now in
        text_in lease.new
        ≡ enciphered_text clear start.now padding (text_in lease.old) }
    ensures room { (bench_of lease.new).text.size ≤ 4096 }
    ensures stays { ChangesText lease.old lease.new }
{
    pad_text(lease, padding);
    encipher_blocks(lease, key, start);
}

/// Deciphers a text of whole blocks, or of none, by DES or by triple DES, as the clear key of a judged internal token
/// is of single or of double length, in a chain from a start.
fn decipher_chain(lease: &mut Lease, key: &Judged, start: &[u8; 8])
    requires halves { HasHalves key.now }
    requires whole { (bench_of lease.old).text.size % 8 ≡ 0 }
    ensures text { let clear = opened (bench_of lease.old) key.now in
        text_in lease.new
        ≡ uncbc_text (une clear.key) start.now (text_in lease.old) }
    ensures place { (bench_of lease.new).text
        ≡ with_text (bench_of lease.old).text (text_in lease.new) }
    ensures stays { ChangesText lease.old lease.new }
{
    schedule_key(lease, key);
    if is_single(key) {
        cbc_decipher_single(lease, start);
    } else {
        cbc_decipher(lease, start);
    }
}

/// Deciphers a text of whole blocks, or of none, under the clear key of a judged internal token, in a chain from a
/// start, in place. Only the place `Key`, the schedules and the text of the lease change.
pub fn decipher_blocks(lease: &mut Lease, key: &Judged, start: &[u8; 8])
    requires halves { HasHalves key.now }
    requires whole { (bench_of lease.old).text.size % 8 ≡ 0 }
    ensures text { let clear = opened (bench_of lease.old) key.now in
        text_in lease.new
        ≡ uncbc_text (une clear.key) start.now (text_in lease.old) }
    ensures place { let text = text_in lease.new in
        (bench_of lease.new).text ≡ with_text (bench_of lease.old).text text
        × length text ≡ (bench_of lease.old).text.size }
    ensures stays { ChangesText lease.old lease.new }
{
    decipher_chain(lease, key, start);
    text_has_length(lease);
}

/// Deciphers the text under the clear key of a judged internal token, in a chain from a start, in place, and takes
/// off its padding, where that is asked. Rule 31 refuses a last clear byte that is no count of padding: the text is
/// then empty, and its clear bytes are zero. Only the place `Key`, the schedules and the text of the lease change.
pub fn decipher(lease: &mut Lease, key: &Judged, start: &[u8; 8], padding: Pad) -> Result<(), Rule>
    requires halves { HasHalves key.now }
    requires length { first_failing
        (text_checks TextUse.Decipher (bench_of lease.old).text.size) ≡ None }
    ensures judges { let clear = opened (bench_of lease.old) key.now in
        Judges (pad_checks clear start.now padding (text_in lease.old)) result }
    ensures text { let clear = opened (bench_of lease.old) key.now in
        OnOk result (deciphered_text clear start.now padding (text_in lease.old)
        ≡ Some (text_in lease.new)) }
    ensures refused { OnErr result ((bench_of lease.new).text ≡ cleared (bench_of lease.old).text) }
    ensures room { (bench_of lease.new).text.size ≤ 4096 }
    ensures stays { ChangesText lease.old lease.new }
{
    decipher_blocks(lease, key, start);
    match padding {
        Pad::None => Ok(()),
        Pad::X923 => remove_padding(lease),
    }
}
