//! A segment of a text whose message authentication code is made (FIPS 113, ANSI X9.9, ANSI X9.19).
ghost use Rattle.std.specs.Prelude.{◌≡◌, ◌≤◌, ◌<◌, ◌+◌, ◌%◌, [], None, drop, length, take};
ghost use Rattle.cca_vectors.specs.Checks.{first_failing};
ghost use Rattle.cca_vectors.specs.Vectors.{length_of};
ghost use Rattle.des_blocks.specs.Modes.{blocks, cbc, fill, last_block, zero_block};
ghost use Rattle.des_blocks.specs.Texts.{text_in};
ghost use Rattle.key_cells.specs.Lease.{bench_of};
ghost use Rattle.multi_encipher.specs.Bundles.{ChangesKeyAt};
ghost use Rattle.verb_rules.specs.declared.lengths.TextUse.{TextUse};
ghost use Rattle.verb_rules.specs.Keys.{HasHalves, opened};
ghost use Rattle.verb_rules.specs.LengthChecks.{mac_checks, text_checks};
ghost use Rattle.cipher_verbs.specs.CipherTexts.{ChangesText};
ghost use Rattle.text_segments.specs.declared.modes.Mode.TheVariants as mode;
ghost use Rattle.text_segments.specs.Segments.{at_hand, chain_after, code_cipher, last_code, spent};

use crate::chains::Chain;
use crate::places::{combine_start, fill_text, put_carried};
use cipher_verbs::clear_text;
use des_core::cbc_mac;
use key_cells::{KeyPlace, Lease, ShortList};
use mac_verbs::mac_generate;
use verb_rules::{Judged, MacRule, TextUse, schedule_key};

/// How many bytes a block has.
const BLOCK: usize = 8;

/// The last enciphered block of the chain from zeros over the first bytes of the text.
fn last_of_chain(lease: &mut Lease, key: &Judged, rule: MacRule, count: usize) -> [u8; 8]
    requires halves { HasHalves key.now }
    requires key { first_failing (mac_checks rule (length_of key.now.token.vector)) ≡ None }
    requires some { 0 < count }
    requires within { count ≤ (bench_of lease.old).text.size }
    ensures block { let clear = opened (bench_of lease.old) key.now in
        result ≡ last_block zero_block (cbc (code_cipher rule clear) zero_block
        (blocks (fill (take count (text_in lease.old))))) }
    ensures stays { ChangesKeyAt KeyPlace.Key lease.old lease.new }
{
    schedule_key(lease, key);
    let [left, _, _] = lease.schedules();
    cbc_mac(left, &lease.text()[..count])
}

/// The last enciphered block of the chain from `start` over the first bytes of the text, whole blocks; `start` where
/// there are none. It is the chain from zeros over the text whose first block is combined with `start`.
fn chained_block(
    lease: &mut Lease,
    key: &Judged,
    rule: MacRule,
    start: &[u8; 8],
    count: usize,
) -> [u8; 8]
    requires halves { HasHalves key.now }
    requires key { first_failing (mac_checks rule (length_of key.now.token.vector)) ≡ None }
    requires blocks { count % 8 ≡ 0 }
    requires within { count ≤ (bench_of lease.old).text.size }
    ensures block { let clear = opened (bench_of lease.old) key.now in
        result ≡ last_block start.now
        (cbc (code_cipher rule clear) start.now (blocks (take count (text_in lease.old)))) }
    ensures size { (bench_of lease.new).text.size ≡ (bench_of lease.old).text.size }
    ensures past { let size = (bench_of lease.new).text.size in
        drop size (bench_of lease.new).text.bytes ≡ drop size (bench_of lease.old).text.bytes }
    ensures stays { ChangesText lease.old lease.new }
{
    if count == 0 {
        return *start;
    }
    combine_start(lease, start);
    last_of_chain(lease, key, rule, count)
}

/// Makes a segment but the last one go into a code. Nothing of it stays in the place of the text.
pub(crate) fn code_segment(lease: &mut Lease, key: &Judged, rule: MacRule, chain: &Chain) -> Chain
    requires halves { HasHalves key.now }
    requires length { (bench_of lease.old).text.size ≤ 4088 }
    requires key { first_failing (mac_checks rule (length_of key.now.token.vector)) ≡ None }
    ensures chain { let clear = opened (bench_of lease.old) key.now in
        result ≡ chain_after clear (mode.Mac rule) chain.now (text_in lease.old) }
    ensures text { text_in lease.new ≡ [] }
    ensures spent { (bench_of lease.new).text
        ≡ spent (length (at_hand chain.now (text_in lease.old))) (bench_of lease.old).text }
    ensures stays { ChangesText lease.old lease.new }
{
    put_carried(lease, &chain.carried);
    let whole = lease.text().len() / BLOCK * BLOCK;
    let carried = ShortList::of(&lease.text()[whole..]);
    let block = chained_block(lease, key, rule, &chain.block, whole);
    clear_text(lease);
    Chain { block, carried }
}

/// The code of a text of which this is the last segment, under the clear key of a judged internal token. A verb
/// replies its leftmost bytes. Nothing of the segment stays in the place of the text. Only that, the place `Key` and
/// the schedules of the lease change.
pub fn last_mac(lease: &mut Lease, key: &Judged, rule: MacRule, chain: &Chain) -> [u8; 8]
    requires halves { HasHalves key.now }
    requires text { first_failing (text_checks (TextUse.LastMac (length chain.now.carried))
        (bench_of lease.old).text.size) ≡ None }
    requires key { first_failing (mac_checks rule (length_of key.now.token.vector)) ≡ None }
    ensures code { let clear = opened (bench_of lease.old) key.now in
        result ≡ last_code clear rule chain.now (text_in lease.old) }
    ensures spent { (bench_of lease.new).text
        ≡ spent (length (fill (at_hand chain.now (text_in lease.old)))) (bench_of lease.old).text }
    ensures stays { ChangesText lease.old lease.new }
{
    put_carried(lease, &chain.carried);
    fill_text(lease);
    combine_start(lease, &chain.block);
    let code = mac_generate(lease, key, rule);
    clear_text(lease);
    code
}
