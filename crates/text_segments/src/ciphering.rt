//! A segment of a text that is enciphered or deciphered.
ghost use Rattle.std.specs.Prelude.{◌≡◌, ◌≤◌};
ghost use Rattle.des_blocks.specs.Texts.{text_in};
ghost use Rattle.key_cells.specs.Lease.{bench_of};
ghost use Rattle.verb_rules.specs.Keys.{HasHalves, opened};
ghost use Rattle.cipher_verbs.specs.CipherTexts.{ChangesText};
ghost use Rattle.text_segments.specs.declared.modes.Mode.TheVariants as mode;
ghost use Rattle.text_segments.specs.Segments.{chain_after, segment_text};

use crate::chains::Chain;
use crate::places::{last_block, put_carried, take_rest};
use cipher_verbs::{decipher_blocks, encipher_blocks};
use key_cells::Lease;
use verb_rules::Judged;

/// Enciphers a segment but the last one.
pub(crate) fn encipher_segment(lease: &mut Lease, key: &Judged, chain: &Chain) -> Chain
    requires halves { HasHalves key.now }
    requires length { (bench_of lease.old).text.size ≤ 4088 }
    ensures chain { let clear = opened (bench_of lease.old) key.now in
        result ≡ chain_after clear mode.Encipher chain.now (text_in lease.old) }
    ensures text { let clear = opened (bench_of lease.old) key.now in
        text_in lease.new ≡ segment_text clear mode.Encipher chain.now (text_in lease.old) }
    ensures room { (bench_of lease.new).text.size ≤ 4096 }
    ensures stays { ChangesText lease.old lease.new }
{
    put_carried(lease, &chain.carried);
    let carried = take_rest(lease);
    encipher_blocks(lease, key, &chain.block);
    let block = last_block(lease.text(), &chain.block);
    Chain { block, carried }
}

/// Deciphers a segment but the last one. The chaining block is the last block of cipher text, and is taken before
/// that is deciphered.
pub(crate) fn decipher_segment(lease: &mut Lease, key: &Judged, chain: &Chain) -> Chain
    requires halves { HasHalves key.now }
    requires length { (bench_of lease.old).text.size ≤ 4088 }
    ensures chain { let clear = opened (bench_of lease.old) key.now in
        result ≡ chain_after clear mode.Decipher chain.now (text_in lease.old) }
    ensures text { let clear = opened (bench_of lease.old) key.now in
        text_in lease.new ≡ segment_text clear mode.Decipher chain.now (text_in lease.old) }
    ensures room { (bench_of lease.new).text.size ≤ 4096 }
    ensures stays { ChangesText lease.old lease.new }
{
    put_carried(lease, &chain.carried);
    let carried = take_rest(lease);
    let sealed = last_block(lease.text(), &chain.block);
    decipher_blocks(lease, key, &chain.block);
    Chain {
        block: sealed,
        carried,
    }
}
