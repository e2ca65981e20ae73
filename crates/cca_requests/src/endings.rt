//! How the reply to a request ends: one that was carried out, or one that a rule refuses.
ghost use Rattle.std.specs.Prelude.{◌≡◌, ◌<◌, ◌≤◌, ◌+◌, ◌++◌, [], List, length};
ghost use Rattle.line_service.specs.Replies.{Field, Done, Refused, spelled, written};
ghost use Rattle.verb_rules.specs.Rules.{rule_number};
ghost use Rattle.cca_machine.specs.Keys.{warning};
ghost use Rattle.line_service.specs.Lines.{EndsInNewline};

use cca_machine::Refusal;
use verb_script::ReplyBuffer;

/// Ends the reply to a request that was carried out, with the warning where a key is under the old master key.
pub(crate) fn finish(warns: bool, reply: &mut ReplyBuffer)
    requires { length reply.old ≤ 69000 }
    ensures spells { (fields : List Field) → reply.old ≡ written fields
        → reply.new ≡ spelled (Done (fields ++ warning warns)) }
    ensures line { EndsInNewline reply.new }
{
    if warns {
        reply.text("warn", b"old");
    }
    reply.finish();
}

/// Ends the reply to a request that was carried out and warns of nothing.
pub(crate) fn end(reply: &mut ReplyBuffer)
    requires { length reply.old ≤ 69000 }
    ensures spells { (fields : List Field) → reply.old ≡ written fields
        → reply.new ≡ spelled (Done fields) }
    ensures line { EndsInNewline reply.new }
{
    reply.finish();
}

/// Writes the reply that names the rule and the operand.
#[tactic(auto, unfolding(line_service::specs::Replies::refusal))]
pub(crate) fn refuse(reply: &mut ReplyBuffer, refusal: &Refusal)
    requires empty { reply.old ≡ [] }
    requires short { length refusal.now.operand.now < 100 }
    ensures spells { reply.new
        ≡ spelled (Refused (rule_number refusal.now.rule) refusal.now.operand.now) }
    ensures line { EndsInNewline reply.new }
{
    reply.refuse(refusal.rule.number(), refusal.operand);
    reply.finish();
}
