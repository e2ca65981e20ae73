//! Texts and chaining values in the fields of a request.
ghost use Rattle.std.specs.Prelude.{◌≡◌, ◌≤◌, ◌/◌, ◌∷◌, [], None, OnOk, IfErr, IsTrue, codes, length};
ghost use Rattle.cca_vectors.specs.Checks.{first_failing};
ghost use Rattle.cca_vectors.specs.Vectors.{length_of};
ghost use Rattle.key_cells.specs.Bench.{text_of};
ghost use Rattle.key_cells.specs.Lease.{bench_of, holding};
ghost use Rattle.line_service.specs.Replies.{Hex};
ghost use Rattle.verb_rules.specs.LengthChecks.{mac_checks, text_checks};
ghost use Rattle.verb_rules.specs.Rules.{Judges};
ghost use Rattle.verb_script.specs.Grammar.{accepts, hex_text, is_hex};
ghost use Rattle.verb_script.specs.Values.{hex_value};
ghost use Rattle.cca_machine.specs.Verdict.{first_refusal, questions};
ghost use Rattle.cca_machine.specs.Refusals.{IsRefusal};
ghost use Rattle.cca_machine.specs.Deciding.{Shows};

use cca_machine::Refusal;
use key_cells::Lease;
use verb_rules::{Judged, MacRule, Rule, TextUse, judge_mac, judge_text};
use verb_script::{ReplyBuffer, decode};

/// Rule 23 of the text that the digits spell.
#[tactic(auto, using(crate::proofs::TextSizes::fits))]
pub(crate) fn judge_digits(use_of: TextUse, digits: &[u8]) -> Result<(), Rule>
    ensures judges { Judges (text_checks use_of (length digits.now / 2)) result }
    ensures room { OnOk result (length digits.now / 2 ≤ 4096) }
{
    judge_text(use_of, digits.len() / 2)
}

/// Rule 23 of the text that the digits spell, whose code is asked for, and then rule 32 of the key.
pub(crate) fn judge_code(
    use_of: TextUse,
    digits: &[u8],
    method: MacRule,
    key: &Judged,
) -> Result<(), Refusal>
    ensures refused { IfErr result (IsRefusal (first_refusal (
        questions (codes "text") (text_checks use_of (length digits.now / 2))
        ∷ questions (codes "key") (mac_checks method (length_of key.now.token.vector)) ∷ []))) }
    ensures text { OnOk result (first_failing (text_checks use_of (length digits.now / 2)) ≡ None) }
    ensures key { OnOk result
        (first_failing (mac_checks method (length_of key.now.token.vector)) ≡ None) }
    ensures room { OnOk result (length digits.now / 2 ≤ 4096) }
{
    if let Err(rule) = judge_digits(use_of, digits) {
        return Err(Refusal {
            rule,
            operand: "text",
        });
    }
    match judge_mac(method, key.token.vector.length()) {
        Ok(()) => Ok(()),
        Err(rule) => Err(Refusal {
            rule,
            operand: "key",
        }),
    }
}

/// Puts the text that the digits spell into the workbench.
pub(crate) fn put_text(digits: &[u8], lease: &mut Lease)
    requires digits { IsTrue (accepts hex_text digits.now) }
    requires room { length digits.now / 2 ≤ 4096 }
    ensures text { text_of (bench_of lease.new).text ≡ hex_value digits.now }
    ensures size { (bench_of lease.new).text.size ≡ length digits.now / 2 }
    ensures stays { lease.new
        ≡ holding lease.old (record (bench_of lease.old) { text = (bench_of lease.new).text }) }
{
    lease.set_text_length(digits.len() / 2);
    decode(digits, lease.text_mut());
}

/// The block that 16 digits spell.
pub(crate) fn block_of(digits: &[u8]) -> [u8; 8]
    requires { IsTrue (is_hex 16 digits.now) }
    ensures { result ≡ hex_value digits.now }
{
    let mut block = [0; 8];
    decode(digits, &mut block);
    block
}

/// Shows the text of the workbench.
pub(crate) fn show_text(lease: &Lease, reply: &mut ReplyBuffer)
    requires room { (bench_of lease.now).text.size ≤ 4096 }
    requires empty { reply.old ≡ [] }
    ensures { Shows (Hex (codes "text") (text_of (bench_of lease.now).text) ∷ []) reply.new }
{
    reply.ok();
    reply.hex("text", lease.text());
}
