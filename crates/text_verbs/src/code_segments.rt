//! CSNBMGN and CSNBMVR over a text in segments.
ghost use Rattle.std.specs.Prelude.{◌≡◌, ◌/◌, ◌∷◌, [], ℕ, Bool, IsTrue, codes, length, List};
ghost use Rattle.cipher_verbs.specs.declared.padding.Pad.{Pad};
ghost use Rattle.key_cells.specs.Lease.{bench_of};
ghost use Rattle.line_service.specs.Replies.{Hex};
ghost use Rattle.text_segments.specs.Chains.{chain_bytes};
ghost use Rattle.text_segments.specs.Segments.{last_code};
ghost use Rattle.text_segments.specs.declared.modes.Mode.TheVariants.{Mac};
ghost use Rattle.verb_rules.specs.Keys.{opened};
ghost use Rattle.verb_script.specs.Grammar.{is_hex};
ghost use Rattle.verb_script.specs.Values.{hex_value};
ghost use Rattle.cca_machine.specs.Act.{code_segment_fields};
ghost use Rattle.cca_machine.specs.Choices.{mac_rule_named};
ghost use Rattle.cca_machine.specs.CutRequests.{first_code_row, middle_code_row};
ghost use Rattle.cca_machine.specs.Verdict.{first_refusal, code_key_questions, last_segment_questions, segment_questions};
ghost use Rattle.text_verbs.specs.CodePurposes.{IsPurpose, code_fields, last_code_row, purpose_text};
ghost use Rattle.cca_machine.specs.Decided.{SettlesOver, asked, HasText, HasTextFor};
ghost use Rattle.cca_machine.specs.Deciding.{Shows, ShowsOver};

use crate::codes::{Purpose, show_for};
use crate::segments::chain_in;
use crate::texts::{judge_code, put_text};
use cca_machine::{Effect, Granted, Refusal, key_in, mac_rule_of};
use key_cells::Lease;
use text_segments::{Chain, Mode, last_mac, segment};
use verb_rules::{Judged, Rule, TextUse};
use verb_script::ReplyBuffer;

/// Shows a chain.
fn show_chain(chain: &Chain, reply: &mut ReplyBuffer)
    requires { reply.old ≡ [] }
    ensures { Shows (Hex (codes "chain") (chain_bytes chain.now) ∷ []) reply.new }
{
    reply.ok();
    reply.hex("chain", &chain.bytes());
}

/// Shows the chain after a segment that goes on from this one.
fn go_on(
    key: &Judged,
    rule: &[u8],
    chain: &Chain,
    text: &[u8],
    lease: &mut Lease,
    reply: &mut ReplyBuffer,
) -> Effect
    requires given { HasText key.now text.now reply.old }
    ensures shows { let clear = opened (bench_of lease.old) key.now in
        let method = mac_rule_named rule.now in
        ShowsOver lease.old lease.new (first_refusal (code_key_questions method clear
        (segment_questions (length text.now / 2))))
        (code_segment_fields clear method chain.now (hex_value text.now))
        result reply.new }
{
    let method = mac_rule_of(rule);
    if let Err(broken) = judge_code(TextUse::Segment, text, method, key) {
        return Effect::Refused(broken);
    }
    put_text(text, lease);
    let next = segment(lease, key, Mode::Mac(method), chain);
    show_chain(&next, reply);
    Effect::Shown
}

/// Shows the chain after the first segment of a text whose code is made or verified. A text that is
/// too long is refused, and a key that the rule doesn't take.
pub(crate) fn first_code_segment(
    granted: &Granted,
    rule: &[u8],
    text: &[u8],
    lease: &mut Lease,
    reply: &mut ReplyBuffer,
) -> Effect
    requires given { HasTextFor granted.now text.now reply.old }
    ensures settles { (verifies : Bool) (role key segment : List ℕ)
        → SettlesOver (asked (first_code_row verifies)
        (role ∷ key ∷ rule.now ∷ segment ∷ text.now ∷ []))
        granted.now lease.old lease.new result reply.new }
{
    let key = key_in(&granted.first);
    let start = Chain::first([0; 8]);
    go_on(key, rule, &start, text, lease, reply)
}

/// Shows the chain after a further segment. A chain that no segment gives is refused, a text that
/// is too long, and a key that the rule doesn't take.
pub(crate) fn middle_code_segment(
    granted: &Granted,
    rule: &[u8],
    chain: &[u8],
    text: &[u8],
    lease: &mut Lease,
    reply: &mut ReplyBuffer,
) -> Effect
    requires given { HasTextFor granted.now text.now reply.old }
    requires chain { IsTrue (is_hex 32 chain.now) }
    ensures settles { (verifies : Bool) (role key segment : List ℕ)
        → SettlesOver (asked (middle_code_row verifies)
        (role ∷ key ∷ rule.now ∷ segment ∷ chain.now ∷ text.now ∷ []))
        granted.now lease.old lease.new result reply.new }
{
    let key = key_in(&granted.first);
    match chain_in(chain) {
        Some(before) => go_on(key, rule, &before, text, lease, reply),
        None => Effect::Refused(Refusal {
            rule: Rule::Chain,
            operand: "chain",
        }),
    }
}

/// Shows of the code of a text, of which this is the last segment, what it is for.
fn end_code(
    key: &Judged,
    rule: &[u8],
    chain: &Chain,
    purpose: Purpose<'_>,
    text: &[u8],
    lease: &mut Lease,
    reply: &mut ReplyBuffer,
) -> Effect
    requires given { HasText key.now text.now reply.old }
    requires purpose { IsPurpose purpose }
    ensures shows { let clear = opened (bench_of lease.old) key.now in
        let method = mac_rule_named rule.now in
        ShowsOver lease.old lease.new (first_refusal (code_key_questions method clear
        (last_segment_questions (Mac method) Pad.None chain.now (length text.now / 2))))
        (code_fields purpose.entry (last_code clear method chain.now (hex_value text.now)))
        result reply.new }
{
    let method = mac_rule_of(rule);
    let carried = chain.carried.bytes().len();
    if let Err(broken) = judge_code(TextUse::LastMac { carried }, text, method, key) {
        return Effect::Refused(broken);
    }
    put_text(text, lease);
    show_for(purpose, &last_mac(lease, key, method, chain), reply);
    Effect::Shown
}

/// Shows of the code of a text, of which this is the last segment, what it is for. A chain that no
/// segment gives is refused, a text of a wrong length, and a key that the rule doesn't take.
pub(crate) fn last_code_segment(
    granted: &Granted,
    rule: &[u8],
    chain: &[u8],
    purpose: Purpose<'_>,
    text: &[u8],
    lease: &mut Lease,
    reply: &mut ReplyBuffer,
) -> Effect
    requires given { HasTextFor granted.now text.now reply.old }
    requires chain { IsTrue (is_hex 32 chain.now) }
    requires purpose { IsPurpose purpose }
    ensures settles { (role key segment : List ℕ)
        → SettlesOver (asked (last_code_row purpose.entry)
        (role ∷ key ∷ rule.now ∷ segment ∷ purpose_text purpose.entry
        ∷ chain.now ∷ text.now ∷ []))
        granted.now lease.old lease.new result reply.new }
{
    let key = key_in(&granted.first);
    match chain_in(chain) {
        Some(before) => end_code(key, rule, &before, purpose, text, lease, reply),
        None => Effect::Refused(Refusal {
            rule: Rule::Chain,
            operand: "chain",
        }),
    }
}
