//! What an operand asks of a key.
ghost use Rattle.std.specs.Prelude.{◌≡◌};
ghost use Rattle.verb_rules.specs.Needs.{any_key, exported_key, transport_key};

use crate::classes::Classes;
use cca_vectors::{Class, Usage};
use key_tokens::Asked;

/// What an operand asks of the key that is given for it.
#[derive(Clone, Copy, Debug, PartialEq, Eq)]
pub struct Need {
    /// The kind of its token.
    pub asked: Asked,
    /// The classes that it may have.
    pub classes: Classes,
    /// The use that its control vector is to permit, where one is asked for.
    pub usage: Option<Usage>,
    /// Whether its control vector is to permit export.
    pub export: bool,
    /// Whether it is to be double length, as a transport key is.
    pub double: bool,
    /// Whether it may be a key part.
    pub parts: bool,
}

/// Every class of keys.
pub const EVERY_CLASS: [Class; 6] = [
    Class::Data,
    Class::Cipher,
    Class::Mac,
    Class::Exporter,
    Class::Importer,
    Class::Other,
];

/// Any internal key, also one that is a part.
pub fn any_key() -> Need
    ensures { result ≡ any_key }
{
    Need {
        asked: Asked::Internal,
        classes: Classes::of(&EVERY_CLASS),
        usage: None,
        export: false,
        double: false,
        parts: true,
    }
}

/// An internal key of any class that may be exported.
pub fn exported_key() -> Need
    ensures { result ≡ exported_key }
{
    Need {
        asked: Asked::Internal,
        classes: Classes::of(&EVERY_CLASS),
        usage: None,
        export: true,
        double: false,
        parts: false,
    }
}

/// A transport key of double length: of this class, and permitted for this use.
pub fn transport_key(class: Class, usage: Usage) -> Need
    ensures { result ≡ transport_key class usage }
{
    Need {
        asked: Asked::Internal,
        classes: Classes::of(&[class]),
        usage: Some(usage),
        export: false,
        double: true,
        parts: false,
    }
}
