//! The padding of ANSI X9.23, in the place of the text.
ghost use Rattle.std.specs.Prelude.{◌≡◌, ◌≤◌, ◌<◌, ◌+◌, ◌-◌, ◌%◌, ◌++◌, ◌∷◌, [], None, Some, OnOk, OnErr, IfErr, length, replicate, take};
ghost use Rattle.cca_vectors.specs.Checks.{first_failing};
ghost use Rattle.verb_rules.specs.LengthChecks.{text_checks};
ghost use Rattle.key_cells.specs.Lease.{bench_of, holding};
ghost use Rattle.des_blocks.specs.Modes.{pad, unpad};
ghost use Rattle.des_blocks.specs.Texts.{text_in};
ghost use Rattle.cipher_verbs.specs.CipherTexts.{cleared, enciphering, padded};

use key_cells::Lease;
use verb_rules::{Rule, TextUse};

/// How many bytes a block has.
const BLOCK: usize = 8;

/// How a text is made whole blocks.
#[derive(Clone, Copy, Debug, PartialEq, Eq)]
pub enum Pad {
    /// It has whole blocks.
    None,
    /// By the padding of ANSI X9.23: 1 to 8 bytes more, zeros and last their number.
    X923,
}

impl Pad {
    ghost use Rattle.std.specs.Prelude.{◌≡◌};
    ghost use Rattle.cipher_verbs.specs.CipherTexts.{enciphering, pad_of_name};

    /// The padding with this name: NONE or X9.23; none where the text is neither.
    pub fn read(text: &[u8]) -> Option<Pad>
        ensures { result ≡ pad_of_name text.now }
    {
        if text == b"NONE".as_slice() {
            Some(Pad::None)
        } else if text == b"X9.23".as_slice() {
            Some(Pad::X923)
        } else {
            None
        }
    }

    /// What a text is given for that is enciphered with this padding.
    pub fn use_of(self) -> TextUse
        ensures { result ≡ enciphering self }
    {
        match self {
            Pad::None => TextUse::EncipherPlain,
            Pad::X923 => TextUse::EncipherPadded,
        }
    }
}

/// Writes zeros over the end of a text from a place on, and last how many bytes are written.
fn put_padding(text: &mut [u8], at: usize)
    requires end { at < length text.old }
    requires few { length text.old ≤ at + 8 }
    ensures { let count = length text.old - at in
        text.new ≡ take at text.old ++ (replicate (count - 1) 0 ++ count ∷ []) }
{
    let count = (text.len() - at) as u8;
    let last = text.len() - 1;
    text[at..last].fill(0);
    text[last] = count;
}

/// Pads the text to whole blocks.
#[tactic(auto, unfolding(des_blocks::specs::Modes::pad))]
fn add_padding(lease: &mut Lease)
    requires { (bench_of lease.old).text.size < 4096 }
    ensures whole { (bench_of lease.new).text.size % 8 ≡ 0 }
    ensures text { text_in lease.new ≡ pad (text_in lease.old) }
    ensures room { (bench_of lease.new).text.size ≤ 4096 }
    ensures stays { lease.new
        ≡ holding lease.old (record (bench_of lease.old) { text = (bench_of lease.new).text }) }
{
    let size = lease.text().len();
    lease.set_text_length(size + BLOCK - size % BLOCK);
    put_padding(lease.text_mut(), size);
}

/// Pads the text to whole blocks, where that is asked.
pub(crate) fn pad_text(lease: &mut Lease, padding: Pad)
    requires { first_failing
        (text_checks (enciphering padding) (bench_of lease.old).text.size) ≡ None }
    ensures whole { (bench_of lease.new).text.size % 8 ≡ 0 }
    ensures text { text_in lease.new ≡ padded padding (text_in lease.old) }
    ensures room { (bench_of lease.new).text.size ≤ 4096 }
    ensures stays { lease.new
        ≡ holding lease.old (record (bench_of lease.old) { text = (bench_of lease.new).text }) }
{
    match padding {
        Pad::None => {}
        Pad::X923 => add_padding(lease),
    }
}

/// Makes the bytes of the text zero, and the text empty.
pub fn clear_text(lease: &mut Lease)
    ensures { lease.new ≡ holding lease.old
        (record (bench_of lease.old) { text = cleared (bench_of lease.old).text }) }
{
    lease.text_mut().fill(0);
    lease.set_text_length(0);
}

/// Takes the padding off the text, or clears the text where its last byte is no count of padding.
#[tactic(auto, unfolding(des_blocks::specs::Modes::unpad))]
pub(crate) fn remove_padding(lease: &mut Lease) -> Result<(), Rule>
    requires blocks { BLOCK ≤ (bench_of lease.old).text.size }
    requires room { (bench_of lease.old).text.size ≤ 4096 }
    ensures text { OnOk result (unpad (text_in lease.old) ≡ Some (text_in lease.new)) }
    ensures refused { OnErr result (unpad (text_in lease.old) ≡ None) }
    ensures rule { IfErr result (λ rule. rule ≡ Rule.PadCount) }
    ensures cleared { OnErr result ((bench_of lease.new).text ≡ cleared (bench_of lease.old).text) }
    ensures room { (bench_of lease.new).text.size ≤ 4096 }
    ensures stays { lease.new
        ≡ holding lease.old (record (bench_of lease.old) { text = (bench_of lease.new).text }) }
{
    let size = lease.text().len();
    let count = lease.text()[size - 1] as usize;
    if count == 0 || count > BLOCK {
        clear_text(lease);
        return Err(Rule::PadCount);
    }
    lease.set_text_length(size - count);
    Ok(())
}
