//! One segment of a text, and the last one of a text that is enciphered or deciphered.
ghost use Rattle.std.specs.Prelude.{◌≡◌, ◌≤◌, None, Some, OnErr, OnOk, length};
ghost use Rattle.cca_vectors.specs.Checks.{first_failing};
ghost use Rattle.cca_vectors.specs.Vectors.{length_of};
ghost use Rattle.des_blocks.specs.Texts.{text_in};
ghost use Rattle.key_cells.specs.Lease.{bench_of};
ghost use Rattle.verb_rules.specs.declared.lengths.TextUse.{TextUse};
ghost use Rattle.verb_rules.specs.Keys.{HasHalves, opened};
ghost use Rattle.verb_rules.specs.LengthChecks.{text_checks};
ghost use Rattle.verb_rules.specs.Rules.{Judges};
ghost use Rattle.cipher_verbs.specs.CipherTexts.{ChangesText};
ghost use Rattle.text_segments.specs.Segments as segments;
ghost use Rattle.text_segments.specs.Segments.{IsCipher, LeavesNothing, at_hand, chain_after, last_checks, last_use, mode_checks, segment_text, spent};

use crate::chains::Chain;
use crate::ciphering::{decipher_segment, encipher_segment};
use crate::codes::code_segment;
use crate::modes::Mode;
use crate::places::put_carried;
use cipher_verbs::{Pad, decipher, encipher};
use key_cells::Lease;
use verb_rules::{Judged, Rule, TextUse};

/// One segment of a text but the last, under the clear key of a judged internal token, and the chain for the next one.
/// The carried bytes of the chain and the text are enciphered or deciphered in place, as far as they are whole blocks.
/// Of a segment of a code nothing stays in the place of the text. Only that, the place `Key` and the schedules of the
/// lease change.
///
/// The cost is that of a whole text, and one move of the text.
pub fn segment(lease: &mut Lease, key: &Judged, mode: Mode, chain: &Chain) -> Chain
    requires halves { HasHalves key.now }
    requires text { first_failing
        (text_checks TextUse.Segment (bench_of lease.old).text.size) ≡ None }
    requires key { first_failing (mode_checks mode (length_of key.now.token.vector)) ≡ None }
    ensures chain { let clear = opened (bench_of lease.old) key.now in
        result ≡ chain_after clear mode chain.now (text_in lease.old) }
    ensures text { let clear = opened (bench_of lease.old) key.now in
        text_in lease.new ≡ segment_text clear mode chain.now (text_in lease.old) }
    ensures nothing { LeavesNothing mode (length (at_hand chain.now (text_in lease.old)))
        (bench_of lease.old).text (bench_of lease.new).text }
    ensures room { (bench_of lease.new).text.size ≤ 4096 }
    ensures stays { ChangesText lease.old lease.new }
{
    match mode {
        Mode::Encipher => encipher_segment(lease, key, chain),
        Mode::Decipher => decipher_segment(lease, key, chain),
        Mode::Mac(rule) => code_segment(lease, key, rule, chain),
    }
}

/// The last segment of a text that is enciphered or deciphered under the clear key of a judged internal token, with
/// the carried bytes of the chain before it, in place. Padding is put on or taken off the carried bytes and the text
/// together. Rule 31 refuses a last clear byte that is no count of padding: the text is then empty, and its clear
/// bytes are zero. Only the place `Key`, the schedules and the text of the lease change.
pub fn last_text(
    lease: &mut Lease,
    key: &Judged,
    mode: Mode,
    chain: &Chain,
    padding: Pad,
) -> Result<(), Rule>
    requires halves { HasHalves key.now }
    requires mode { IsCipher mode }
    requires text { first_failing (text_checks (last_use mode padding (length chain.now.carried))
        (bench_of lease.old).text.size) ≡ None }
    ensures judges { let clear = opened (bench_of lease.old) key.now in
        Judges (last_checks clear mode chain.now padding (text_in lease.old)) result }
    ensures text { let clear = opened (bench_of lease.old) key.now in
        OnOk result (segments.last_text clear mode chain.now padding (text_in lease.old)
        ≡ Some (text_in lease.new)) }
    ensures refused { OnErr result ((bench_of lease.new).text
        ≡ spent (length (at_hand chain.now (text_in lease.old))) (bench_of lease.old).text) }
    ensures room { (bench_of lease.new).text.size ≤ 4096 }
    ensures stays { ChangesText lease.old lease.new }
{
    put_carried(lease, &chain.carried);
    match mode {
        Mode::Decipher => decipher(lease, key, &chain.block, padding),
        _ => {
            encipher(lease, key, &chain.block, padding);
            Ok(())
        }
    }
}
