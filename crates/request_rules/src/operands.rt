//! Operands: what is asked of which field of a request.
ghost use Rattle.std.specs.Prelude.{◌≡◌, ◌∷◌, [], Some, codes};
ghost use Rattle.verb_script.specs.Parsed.{seen};
ghost use Rattle.cca_machine.specs.Operands.{operands, no_operands};
ghost use Rattle.cca_machine.specs.Operands.{one_operand, two_operands, three_operands};
ghost use Rattle.verb_rules.specs.Needs.{any_key, exported_key, transport_key};
ghost use Rattle.cca_machine.specs.Operands.{internal_key, part_key, external_key};
ghost use Rattle.cca_machine.specs.Operands.{first_transport, no_transport, second_transport};
ghost use Rattle.cca_machine.specs.Operands.{five_classes};
ghost use Rattle.cca_machine.specs.Choices.{out_form_named, pair_form_named};
ghost use Rattle.cca_machine.specs.FieldWords.{IsOutForm, IsPairForm};
ghost use Rattle.cca_machine.specs.Granted.{IsAccepted};
ghost use Rattle.request_rules.specs.Judging.{seen_operand, seen_operands, AreFit};

use crate::needed::needed_by;
use cca_machine::{Ask, out_form_of, pair_form_of};
use cca_vectors::Class;
use key_transport::Form;
use verb_rules::{Asked, Classes, EVERY_CLASS, Need, Usage, any_key, exported_key, transport_key};
use verb_script::Request;

/// The name of a field, its text, and what is asked of it.
#[derive(Clone, Copy)]
pub struct Operand<'a> {
    /// The name of the field, as a refusal tells it.
    pub name: &'static str,
    /// Its text.
    pub text: &'a [u8],
    /// What is asked of it.
    pub ask: Ask,
}

impl<'a> Operand<'a> {
    fn new(name: &'static str, text: &'a [u8], ask: Ask) -> Operand<'a>
        ensures { seen_operand result ≡ record { name = name.now; text = text.now; ask = ask } }
    {
        Operand { name, text, ask }
    }

    fn none() -> Operand<'a>
        ensures { seen_operand result
            ≡ record { name = codes "-"; text = []; ask = Ask.Nothing } }
    {
        Operand {
            name: "-",
            text: b"",
            ask: Ask::Nothing,
        }
    }
}

/// The operands of a request, in the order of its fields; of those that it doesn't have nothing is asked.
#[derive(Clone, Copy)]
pub struct Operands<'a> {
    /// The one that is judged first.
    pub first: Operand<'a>,
    /// The next one.
    pub second: Operand<'a>,
    /// The last one.
    pub third: Operand<'a>,
}

impl<'a> Operands<'a> {
    pub(crate) fn none() -> Operands<'a>
        ensures { seen_operands result ≡ no_operands }
    {
        Operands {
            first: Operand::none(),
            second: Operand::none(),
            third: Operand::none(),
        }
    }

    fn one(first: Operand<'a>) -> Operands<'a>
        ensures { seen_operands result ≡ one_operand (seen_operand first.entry) }
    {
        Operands {
            first,
            second: Operand::none(),
            third: Operand::none(),
        }
    }

    fn two(first: Operand<'a>, second: Operand<'a>) -> Operands<'a>
        ensures { seen_operands result
            ≡ two_operands (seen_operand first.entry) (seen_operand second.entry) }
    {
        Operands {
            first,
            second,
            third: Operand::none(),
        }
    }
}

/// What is asked of which field of a request.
pub fn operands_of<'a>(request: &Request<'a>) -> Operands<'a>
    requires accepted { IsAccepted (seen request.now) }
    ensures table { seen_operands result ≡ operands (seen request.now) }
    ensures fit { AreFit (operands (seen request.now)) }
{
    needed_by(request).operands
}

// The arms of a match are to hold references alike, so this one takes one too.
pub(crate) fn no_operands<'a>(_text: &'a [u8]) -> Operands<'a>
    ensures { seen_operands result ≡ no_operands }
{
    Operands::none()
}

pub(crate) fn one_operand<'a>(name: &'static str, text: &'a [u8], ask: Ask) -> Operands<'a>
    ensures { seen_operands result
        ≡ one_operand (record { name = name.now; text = text.now; ask = ask }) }
{
    Operands::one(Operand::new(name, text, ask))
}

pub(crate) fn csnbkrw<'a>(label: &'a [u8], token: &'a [u8]) -> Operands<'a>
    ensures { seen_operands result
        ≡ two_operands (record { name = codes "label"; text = label.now; ask = Ask.Held })
        (record { name = codes "token"; text = token.now; ask = Ask.Token any_key }) }
{
    Operands::two(
        Operand::new("label", label, Ask::Held),
        Operand::new("token", token, Ask::Token(any_key())),
    )
}

/// The transport key of the second of two generated keys, of which the first is internal, and where
/// the first one goes.
pub(crate) fn csnbkgn_pair<'a>(form: &[u8], transport2: &'a [u8], to: &'a [u8]) -> Operands<'a>
    requires { IsPairForm form.now }
    ensures { seen_operands result ≡ two_operands
        (record {
          name = codes "transport2";
          text = transport2.now;
          ask = Ask.Key (second_transport (pair_form_named form.now));
        })
        (record { name = codes "to"; text = to.now; ask = Ask.Target }) }
{
    let form = pair_form_of(form);
    Operands::two(
        Operand::new("transport2", transport2, Ask::Key(second_transport(form))),
        Operand::new("to", to, Ask::Target),
    )
}

/// The transport keys of two generated keys that are both external.
pub(crate) fn csnbkgn_out<'a>(
    form: &[u8],
    transport1: &'a [u8],
    transport2: &'a [u8],
) -> Operands<'a>
    requires { IsOutForm form.now }
    ensures { seen_operands result ≡ two_operands
        (record {
          name = codes "transport1";
          text = transport1.now;
          ask = Ask.Key (first_transport (out_form_named form.now));
        })
        (record {
          name = codes "transport2";
          text = transport2.now;
          ask = Ask.Key (second_transport (out_form_named form.now));
        }) }
{
    let form = out_form_of(form);
    Operands::two(
        Operand::new("transport1", transport1, Ask::Key(first_transport(form))),
        Operand::new("transport2", transport2, Ask::Key(second_transport(form))),
    )
}

pub(crate) fn csnbkim<'a>(token: &'a [u8], transport: &'a [u8], to: &'a [u8]) -> Operands<'a>
    ensures { seen_operands result ≡ three_operands
        (record { name = codes "token"; text = token.now; ask = Ask.External external_key })
        (record {
          name = codes "transport";
          text = transport.now;
          ask = Ask.Key (transport_key Class.Importer Usage.Transport);
        })
        (record { name = codes "to"; text = to.now; ask = Ask.Target }) }
{
    Operands {
        first: Operand::new("token", token, Ask::External(external_key())),
        second: Operand::new(
            "transport",
            transport,
            Ask::Key(transport_key(Class::Importer, Usage::Transport)),
        ),
        third: Operand::new("to", to, Ask::Target),
    }
}

pub(crate) fn csnbkex<'a>(key: &'a [u8], transport: &'a [u8]) -> Operands<'a>
    ensures { seen_operands result ≡ two_operands
        (record { name = codes "key"; text = key.now; ask = Ask.Key exported_key })
        (record {
          name = codes "transport";
          text = transport.now;
          ask = Ask.Key (transport_key Class.Exporter Usage.Transport);
        }) }
{
    Operands::two(
        Operand::new("key", key, Ask::Key(exported_key())),
        Operand::new(
            "transport",
            transport,
            Ask::Key(transport_key(Class::Exporter, Usage::Transport)),
        ),
    )
}

pub(crate) fn csnbpex<'a>(key: &'a [u8], to: &'a [u8]) -> Operands<'a>
    ensures { seen_operands result ≡ two_operands
        (record {
          name = codes "key";
          text = key.now;
          ask = Ask.Key (internal_key five_classes None);
        })
        (record { name = codes "to"; text = to.now; ask = Ask.Target }) }
{
    Operands::two(
        Operand::new("key", key, Ask::Key(internal_key(&FIVE_CLASSES, None))),
        Operand::new("to", to, Ask::Target),
    )
}

/// A token that is changed to the current master key, or to the new one.
pub(crate) fn csnbktc<'a>(token: &'a [u8]) -> Operands<'a>
    ensures { seen_operands result ≡ one_operand (record {
      name = codes "token";
      text = token.now;
      ask = Ask.Token any_key;
    }) }
{
    one_operand("token", token, Ask::Token(any_key()))
}

/// The key part that a further part is combined with, and where the key goes.
pub(crate) fn csnbkpi_middle<'a>(key: &'a [u8], to: &'a [u8]) -> Operands<'a>
    ensures { seen_operands result ≡ two_operands
        (record { name = codes "key"; text = key.now; ask = Ask.Key part_key })
        (record { name = codes "to"; text = to.now; ask = Ask.Target }) }
{
    Operands::two(
        Operand::new("key", key, Ask::Key(part_key())),
        Operand::new("to", to, Ask::Target),
    )
}

/// A key to be translated, and the transport keys that it is translated from and to.
pub(crate) fn csnbktr<'a>(
    token: &'a [u8],
    transport1: &'a [u8],
    transport2: &'a [u8],
) -> Operands<'a>
    ensures { seen_operands result ≡ three_operands
        (record { name = codes "token"; text = token.now; ask = Ask.External external_key })
        (record {
          name = codes "transport1";
          text = transport1.now;
          ask = Ask.Key (transport_key Class.Importer Usage.Translate);
        })
        (record {
          name = codes "transport2";
          text = transport2.now;
          ask = Ask.Key (transport_key Class.Exporter Usage.Translate);
        }) }
{
    Operands {
        first: Operand::new("token", token, Ask::External(external_key())),
        second: Operand::new(
            "transport1",
            transport1,
            Ask::Key(transport_key(Class::Importer, Usage::Translate)),
        ),
        third: Operand::new(
            "transport2",
            transport2,
            Ask::Key(transport_key(Class::Exporter, Usage::Translate)),
        ),
    }
}

/// A key of no class, which no key is.
fn no_transport() -> Need
    ensures { result ≡ no_transport }
{
    Need {
        asked: Asked::Internal,
        classes: Classes::of(&[]),
        usage: None,
        export: false,
        double: true,
        parts: false,
    }
}

/// The transport key of the first of two generated keys.
fn first_transport(form: Form) -> Need
    ensures { result ≡ first_transport form }
{
    match form {
        Form::Op | Form::Opex | Form::Opim => no_transport(),
        Form::Imex => transport_key(Class::Importer, Usage::PairImportExport),
        Form::Exex => transport_key(Class::Exporter, Usage::PairSame),
        Form::Imim => transport_key(Class::Importer, Usage::PairSame),
    }
}

/// The transport key of the second of two generated keys.
fn second_transport(form: Form) -> Need
    ensures { result ≡ second_transport form }
{
    match form {
        Form::Op => no_transport(),
        Form::Opex => transport_key(Class::Exporter, Usage::PairOperational),
        Form::Opim => transport_key(Class::Importer, Usage::PairOperational),
        Form::Imex => transport_key(Class::Exporter, Usage::PairImportExport),
        Form::Exex => transport_key(Class::Exporter, Usage::PairSame),
        Form::Imim => transport_key(Class::Importer, Usage::PairSame),
    }
}

/// An external token of any class.
fn external_key() -> Need
    ensures { result ≡ external_key }
{
    Need {
        asked: Asked::External,
        classes: Classes::of(&EVERY_CLASS),
        usage: None,
        export: false,
        double: false,
        parts: false,
    }
}

/// Every class but OTHER.
pub(crate) const FIVE_CLASSES: [Class; 5] = [
    Class::Data,
    Class::Cipher,
    Class::Mac,
    Class::Exporter,
    Class::Importer,
];

/// An internal key that may be a part, of every class but OTHER.
fn part_key() -> Need
    ensures { result ≡ part_key }
{
    Need {
        asked: Asked::Internal,
        classes: Classes::of(&FIVE_CLASSES),
        usage: None,
        export: false,
        double: false,
        parts: true,
    }
}

/// An internal key of one of these classes that permits a use.
fn internal_key(classes: &[Class], usage: Option<Usage>) -> Need
    ensures { result ≡ internal_key classes.now usage }
{
    Need {
        asked: Asked::Internal,
        classes: Classes::of(classes),
        usage,
        export: false,
        double: false,
        parts: false,
    }
}

pub(crate) fn key_operand<'a>(
    key: &'a [u8],
    classes: &[Class],
    usage: Option<Usage>,
) -> Operands<'a>
    ensures { seen_operands result ≡ one_operand (record {
      name = codes "key";
      text = key.now;
      ask = Ask.Key (internal_key classes.now usage);
    }) }
{
    Operands::one(Operand::new("key", key, Ask::Key(internal_key(classes, usage))))
}
