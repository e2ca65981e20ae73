//! Refusals: the rule that is broken, and the operand that breaks it.
ghost use Rattle.std.specs.Prelude.{◌≡◌, codes};
ghost use Rattle.verb_rules.specs.Rules.{rule_number};
ghost use Rattle.cca_machine.specs.Verdict.{refusal};
ghost use Rattle.cca_machine.specs.Refusals.{refusal_of};

use verb_rules::Rule;

/// The first rule that is broken, with the operand that breaks it, as the reply tells them.
#[derive(Clone, Copy)]
pub struct Refusal {
    /// The rule.
    pub rule: Rule,
    /// The name of the operand; `-` where the request as a whole breaks the rule.
    pub operand: &'static str,
}

impl Refusal {
    /// A refusal by a rule that the request as a whole breaks.
    pub fn of_request(rule: Rule) -> Refusal
        ensures { refusal_of result ≡ refusal (rule_number rule) (codes "-") }
    {
        Refusal { rule, operand: "-" }
    }
}
