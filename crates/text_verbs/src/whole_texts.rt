//! CSNBENC and CSNBDEC over a whole text.
ghost use Rattle.std.specs.Prelude.{◌≡◌, ◌≤◌, ◌/◌, ◌∷◌, [], ℕ, IsTrue, None, Some, OnOk, length, List};
ghost use Rattle.cca_vectors.specs.Checks.{first_failing};
ghost use Rattle.cipher_verbs.specs.CipherTexts.{ChangesText};
ghost use Rattle.des_blocks.specs.Texts.{text_in};
ghost use Rattle.key_cells.specs.Lease.{bench_of};
ghost use Rattle.text_segments.specs.Chains.{first_chain};
ghost use Rattle.text_segments.specs.Segments.{IsCipher, last_checks, last_text};
ghost use Rattle.verb_rules.specs.Keys.{HasHalves, opened};
ghost use Rattle.verb_rules.specs.LengthChecks.{text_checks};
ghost use Rattle.verb_rules.specs.Rules.{Judges};
ghost use Rattle.verb_script.specs.Grammar.{is_hex};
ghost use Rattle.verb_script.specs.Values.{hex_value};
ghost use Rattle.cca_machine.specs.Act.{last_text_fields};
ghost use Rattle.cca_machine.specs.Choices.{pad_named};
ghost use Rattle.cca_machine.specs.Verdict.{first_refusal};
ghost use Rattle.cca_machine.specs.Decided.{SettlesOver, asked, HasText, HasTextFor};
ghost use Rattle.cca_machine.specs.Deciding.{ShowsOver};
ghost use Rattle.text_verbs.specs.WholeTexts.{whole_questions, whole_row, whole_use};

use crate::texts::{block_of, judge_digits, put_text, show_text};
use cca_machine::{Effect, Granted, Refusal, key_in, pad_of};
use cipher_verbs::{Pad, decipher, encipher};
use key_cells::Lease;
use text_segments::Mode;
use verb_rules::{Judged, Rule, TextUse};
use verb_script::ReplyBuffer;

/// What a whole text is given for.
fn use_of(mode: Mode, padding: Pad) -> TextUse
    ensures { result ≡ whole_use mode padding }
{
    match mode {
        Mode::Encipher => padding.use_of(),
        Mode::Decipher => TextUse::Decipher,
        Mode::Mac(_) => TextUse::Mac,
    }
}

/// Enciphers the text of the workbench, or deciphers it.
fn change_text(
    mode: Mode,
    key: &Judged,
    start: &[u8; 8],
    padding: Pad,
    lease: &mut Lease,
) -> Result<(), Rule>
    requires mode { IsCipher mode }
    requires halves { HasHalves key.now }
    requires text { first_failing
        (text_checks (whole_use mode padding) (bench_of lease.old).text.size) ≡ None }
    ensures judges { let clear = opened (bench_of lease.old) key.now in
        Judges (last_checks clear mode (first_chain start.now) padding (text_in lease.old)) result }
    ensures text { let clear = opened (bench_of lease.old) key.now in
        OnOk result (last_text clear mode (first_chain start.now) padding (text_in lease.old)
        ≡ Some (text_in lease.new)) }
    ensures room { (bench_of lease.new).text.size ≤ 4096 }
    ensures stays { ChangesText lease.old lease.new }
{
    match mode {
        Mode::Decipher => decipher(lease, key, start, padding),
        _ => {
            encipher(lease, key, start, padding);
            Ok(())
        }
    }
}

/// Shows the text, enciphered or deciphered in a chain from `iv`.
fn show_changed(
    mode: Mode,
    key: &Judged,
    iv: &[u8],
    pad: &[u8],
    text: &[u8],
    lease: &mut Lease,
    reply: &mut ReplyBuffer,
) -> Effect
    requires mode { IsCipher mode }
    requires given { HasText key.now text.now reply.old }
    requires iv { IsTrue (is_hex 16 iv.now) }
    ensures shows { let clear = opened (bench_of lease.old) key.now in
        let start = hex_value iv.now in
        let padding = pad_named pad.now in
        ShowsOver lease.old lease.new (first_refusal (whole_questions mode clear start padding
        (length text.now / 2) (hex_value text.now)))
        (last_text_fields clear mode (first_chain start) padding (hex_value text.now))
        result reply.new }
{
    let padding = pad_of(pad);
    if let Err(rule) = judge_digits(use_of(mode, padding), text) {
        return Effect::Refused(Refusal {
            rule,
            operand: "text",
        });
    }
    put_text(text, lease);
    match change_text(mode, key, &block_of(iv), padding, lease) {
        Ok(()) => {
            show_text(lease, reply);
            Effect::Shown
        }
        Err(rule) => Effect::Refused(Refusal {
            rule,
            operand: "text",
        }),
    }
}

/// Shows the text enciphered under the key in a chain from `iv`, or deciphered, without its
/// padding. A text of a wrong length is refused, and a deciphered one whose last byte is no count
/// of padding.
pub(crate) fn whole_text(
    mode: Mode,
    granted: &Granted,
    iv: &[u8],
    pad: &[u8],
    text: &[u8],
    lease: &mut Lease,
    reply: &mut ReplyBuffer,
) -> Effect
    requires mode { IsCipher mode }
    requires given { HasTextFor granted.now text.now reply.old }
    requires iv { IsTrue (is_hex 16 iv.now) }
    ensures settles { (role key : List ℕ)
        → SettlesOver (asked (whole_row mode)
        (role ∷ key ∷ iv.now ∷ pad.now ∷ text.now ∷ []))
        granted.now lease.old lease.new result reply.new }
{
    show_changed(mode, key_in(&granted.first), iv, pad, text, lease, reply)
}
