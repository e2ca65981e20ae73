//! What the machine's tables name stands in the tables of what they name.
ghost use Rattle.std.specs.Prelude.{◌≡◌, List, ℕ};
ghost use Rattle.cca_roles.specs.Points.{ArePoints};
ghost use Rattle.cca_vectors.specs.declared.key_class.Class.{Class};
ghost use Rattle.cca_vectors.specs.declared.key_usage.Usage.{Usage};
ghost use Rattle.cca_machine.specs.Choices.{out_form_named, pair_form_named};
ghost use Rattle.cca_machine.specs.Operands.{first_transport, second_transport, transport_key};
ghost use Rattle.cca_machine.specs.Verdict.{needed_points};
ghost use Rattle.verb_script.specs.Grammar.{Request};
ghost use Rattle.verb_script.specs.declared.rows.RequestName.{RequestName};

/// Every access control point that a request needs is one of the table. A name that isn't in the table would be a bit that
/// no access control point has.
pub fn requests_need_points_of_the_table()
    ensures { (name : RequestName) (r : Request) → ArePoints (needed_points name r) }
{}

/// Every form of two generated keys that a request may name has the transport keys that the request takes.
pub fn forms_of_requests_have_transport_keys()
    ensures first { (text : List ℕ) → (class : Class) × (use_of : Usage)
        × (first_transport (out_form_named text) ≡ transport_key class use_of) }
    ensures second { (text : List ℕ) → (class : Class) × (use_of : Usage)
        × (second_transport (out_form_named text) ≡ transport_key class use_of) }
    ensures pair { (text : List ℕ) → (class : Class) × (use_of : Usage)
        × (second_transport (pair_form_named text) ≡ transport_key class use_of) }
{}
