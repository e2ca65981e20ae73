//! What the words of fields choose.
ghost use Rattle.std.specs.Prelude.{◌≡◌, ◌≤◌};
ghost use Rattle.cca_machine.specs.Actions.{part_action};
ghost use Rattle.cca_machine.specs.Choices.{form_named, is_last_part, key_length_named, mac_length_named, mac_rule_named, out_form_named, pad_named, pair_form_named, target_named};
ghost use Rattle.cca_machine.specs.FieldWords.{IsOutForm, IsPairForm, IsPartAction};

use cca_vectors::Length;
use cipher_verbs::{Pad, RandomForm};
use key_transport::{Form, Target};
use master_registers::Action;
use verb_rules::MacRule;

/// How a text is padded: NONE, and X9.23 for any other text.
pub fn pad_of(text: &[u8]) -> Pad
    ensures { result ≡ pad_named text.now }
{
    Pad::read(text).unwrap_or(Pad::X923)
}

/// How a MAC is made: X9.9-1, and X9.19OPT for any other text.
pub fn mac_rule_of(text: &[u8]) -> MacRule
    ensures { result ≡ mac_rule_named text.now }
{
    MacRule::read(text).unwrap_or(MacRule::X919)
}

/// How many bytes of a MAC are shown: 4, 6, and 8 for any other text.
pub fn mac_length_of(text: &[u8]) -> usize
    ensures count { result ≡ mac_length_named text.now }
    ensures most { result ≤ 8 }
{
    if text == b"4".as_slice() {
        4
    } else if text == b"6".as_slice() {
        6
    } else {
        8
    }
}

/// The form of a random number: RANDOM, ODD, and EVEN for any other text.
pub fn random_form_of(text: &[u8]) -> RandomForm
    ensures { result ≡ form_named text.now }
{
    RandomForm::read(text).unwrap_or(RandomForm::Even)
}

/// The length of a generated key: 8, 16, and DOUBLE-O for any other text.
pub fn key_length_of(text: &[u8]) -> Length
    ensures { result ≡ key_length_named text.now }
{
    Length::read(text).unwrap_or(Length::Unique)
}

/// The form of generated keys of which the first is used here: OPEX or OPIM.
pub fn pair_form_of(text: &[u8]) -> Form
    requires { IsPairForm text.now }
    ensures { result ≡ pair_form_named text.now }
{
    Form::read(text).unwrap()
}

/// The form of generated keys that are both used elsewhere: IMEX, EXEX or IMIM.
pub fn out_form_of(text: &[u8]) -> Form
    requires { IsOutForm text.now }
    ensures { result ≡ out_form_named text.now }
{
    Form::read(text).unwrap()
}

/// The master key under which a token is brought: RTCMK, and RTNMK for any other text.
pub fn target_of(text: &[u8]) -> Target
    ensures { result ≡ target_named text.now }
{
    Target::read(text).unwrap_or(Target::New)
}

/// The action that takes a part of a master key: FIRST, MIDDLE or LAST.
pub fn part_action_of(text: &[u8]) -> Action
    requires { IsPartAction text.now }
    ensures { result ≡ part_action text.now }
{
    Action::read(text).unwrap()
}

/// Whether a further part of a key is the last one: MIDDLE or LAST.
pub fn is_last_part(text: &[u8]) -> bool
    ensures { result ≡ is_last_part text.now }
{
    text == b"LAST".as_slice()
}
