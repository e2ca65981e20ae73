//! CSNBENC and CSNBDEC over a text in segments.
ghost use Rattle.std.specs.Prelude.{◌≡◌, ◌≤◌, ◌/◌, ◌∷◌, [], ℕ, IsTrue, MatchOption, Some, None, IfSome, codes, length, List};
ghost use Rattle.cca_vectors.specs.Checks.{first_failing};
ghost use Rattle.des_blocks.specs.Texts.{text_in};
ghost use Rattle.key_cells.specs.Lease.{bench_of};
ghost use Rattle.line_service.specs.Replies.{Hex};
ghost use Rattle.text_segments.specs.Chains.{chain_bytes, chain_checks, chain_of};
ghost use Rattle.text_segments.specs.Segments.{IsCipher};
ghost use Rattle.verb_rules.specs.Keys.{opened};
ghost use Rattle.verb_script.specs.Grammar.{is_hex};
ghost use Rattle.verb_script.specs.Values.{hex_value};
ghost use Rattle.cca_machine.specs.Act.{last_text_fields, segment_fields};
ghost use Rattle.cca_machine.specs.Choices.{pad_named};
ghost use Rattle.cca_machine.specs.CutRequests.{first_row, last_row, middle_row};
ghost use Rattle.cca_machine.specs.Verdict.{first_refusal, last_text_questions, segment_questions};
ghost use Rattle.cca_machine.specs.Decided.{SettlesOver, asked, HasText, HasTextFor};
ghost use Rattle.cca_machine.specs.Deciding.{Shows, ShowsOver};

use crate::texts::{block_of, judge_digits, put_text, show_text};
use cca_machine::{Effect, Granted, Refusal, key_in, pad_of};
use key_cells::Lease;
use text_segments::{Chain, Mode, last_text, segment};
use verb_rules::{Judged, Rule, TextUse};
use verb_script::{ReplyBuffer, decode};

/// The 16 bytes that 32 digits spell.
fn bytes_of(digits: &[u8]) -> [u8; 16]
    requires { IsTrue (is_hex 32 digits.now) }
    ensures { result ≡ hex_value digits.now }
{
    let mut bytes = [0; 16];
    decode(digits, &mut bytes);
    bytes
}

/// The chain that 32 digits spell. None by rule 36.
pub(crate) fn chain_in(digits: &[u8]) -> Option<Chain>
    requires { IsTrue (is_hex 32 digits.now) }
    ensures judges { MatchOption result
        (first_failing (chain_checks (hex_value digits.now)) ≡ Some 36)
        (λ chain. first_failing (chain_checks (hex_value digits.now)) ≡ None) }
    ensures chain { IfSome result (λ chain. chain ≡ chain_of (hex_value digits.now)) }
{
    Chain::read(&bytes_of(digits))
}

/// Shows the text of the workbench, and the chain after it.
fn show_segment(lease: &Lease, chain: &Chain, reply: &mut ReplyBuffer)
    requires room { (bench_of lease.now).text.size ≤ 4096 }
    requires empty { reply.old ≡ [] }
    ensures { Shows (Hex (codes "text") (text_in lease.now)
        ∷ Hex (codes "chain") (chain_bytes chain.now) ∷ []) reply.new }
{
    reply.ok();
    reply.hex("text", lease.text());
    reply.hex("chain", &chain.bytes());
}

/// Shows the text of a segment that goes on from the chain, and the chain after it.
fn go_on(
    mode: Mode,
    key: &Judged,
    chain: &Chain,
    text: &[u8],
    lease: &mut Lease,
    reply: &mut ReplyBuffer,
) -> Effect
    requires mode { IsCipher mode }
    requires given { HasText key.now text.now reply.old }
    ensures shows { let clear = opened (bench_of lease.old) key.now in
        ShowsOver lease.old lease.new (first_refusal (segment_questions (length text.now / 2)))
        (segment_fields clear mode chain.now (hex_value text.now))
        result reply.new }
{
    if let Err(rule) = judge_digits(TextUse::Segment, text) {
        return Effect::Refused(Refusal {
            rule,
            operand: "text",
        });
    }
    put_text(text, lease);
    let next = segment(lease, key, mode, chain);
    show_segment(lease, &next, reply);
    Effect::Shown
}

/// Shows the text of the first segment, enciphered or deciphered under the key from `iv`, and the
/// chain after it. A text that is too long is refused.
pub(crate) fn first_segment(
    mode: Mode,
    granted: &Granted,
    iv: &[u8],
    text: &[u8],
    lease: &mut Lease,
    reply: &mut ReplyBuffer,
) -> Effect
    requires mode { IsCipher mode }
    requires given { HasTextFor granted.now text.now reply.old }
    requires iv { IsTrue (is_hex 16 iv.now) }
    ensures settles { (role key segment : List ℕ)
        → SettlesOver (asked (first_row mode)
        (role ∷ key ∷ segment ∷ iv.now ∷ text.now ∷ []))
        granted.now lease.old lease.new result reply.new }
{
    let key = key_in(&granted.first);
    go_on(mode, key, &Chain::first(block_of(iv)), text, lease, reply)
}

/// Shows the text of a further segment, and the chain after it. A chain that no segment gives is
/// refused, and a text that is too long.
pub(crate) fn middle_segment(
    mode: Mode,
    granted: &Granted,
    chain: &[u8],
    text: &[u8],
    lease: &mut Lease,
    reply: &mut ReplyBuffer,
) -> Effect
    requires mode { IsCipher mode }
    requires given { HasTextFor granted.now text.now reply.old }
    requires chain { IsTrue (is_hex 32 chain.now) }
    ensures settles { (role key segment : List ℕ)
        → SettlesOver (asked (middle_row mode)
        (role ∷ key ∷ segment ∷ chain.now ∷ text.now ∷ []))
        granted.now lease.old lease.new result reply.new }
{
    let key = key_in(&granted.first);
    match chain_in(chain) {
        Some(before) => go_on(mode, key, &before, text, lease, reply),
        None => Effect::Refused(Refusal {
            rule: Rule::Chain,
            operand: "chain",
        }),
    }
}

/// Shows the text of the last segment, which goes on from the chain.
fn end(
    mode: Mode,
    key: &Judged,
    chain: &Chain,
    pad: &[u8],
    text: &[u8],
    lease: &mut Lease,
    reply: &mut ReplyBuffer,
) -> Effect
    requires mode { IsCipher mode }
    requires given { HasText key.now text.now reply.old }
    ensures shows { let clear = opened (bench_of lease.old) key.now in
        let padding = pad_named pad.now in
        ShowsOver lease.old lease.new
        (first_refusal (last_text_questions mode clear chain.now padding
        (length text.now / 2) (hex_value text.now)))
        (last_text_fields clear mode chain.now padding (hex_value text.now))
        result reply.new }
{
    let padding = pad_of(pad);
    let carried = chain.carried.bytes().len();
    if let Err(rule) = judge_digits(mode.use_of_last(padding, carried), text) {
        return Effect::Refused(Refusal {
            rule,
            operand: "text",
        });
    }
    put_text(text, lease);
    match last_text(lease, key, mode, chain, padding) {
        Ok(()) => {
            show_text(lease, reply);
            Effect::Shown
        }
        Err(rule) => Effect::Refused(Refusal {
            rule,
            operand: "text",
        }),
    }
}

/// Shows the text of the last segment. A chain that no segment gives is refused, a text of a wrong
/// length, and a deciphered text whose last byte is no count of padding.
pub(crate) fn last_segment(
    mode: Mode,
    granted: &Granted,
    chain: &[u8],
    pad: &[u8],
    text: &[u8],
    lease: &mut Lease,
    reply: &mut ReplyBuffer,
) -> Effect
    requires mode { IsCipher mode }
    requires given { HasTextFor granted.now text.now reply.old }
    requires chain { IsTrue (is_hex 32 chain.now) }
    ensures settles { (role key segment : List ℕ)
        → SettlesOver (asked (last_row mode)
        (role ∷ key ∷ segment ∷ chain.now ∷ pad.now ∷ text.now ∷ []))
        granted.now lease.old lease.new result reply.new }
{
    let key = key_in(&granted.first);
    match chain_in(chain) {
        Some(before) => end(mode, key, &before, pad, text, lease, reply),
        None => Effect::Refused(Refusal {
            rule: Rule::Chain,
            operand: "chain",
        }),
    }
}
