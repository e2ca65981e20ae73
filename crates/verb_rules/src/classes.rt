//! Sets of key classes.
ghost use Rattle.std.specs.Prelude.{◌≡◌};
ghost use Rattle.cca_vectors.specs.declared.key_class.Class.{Class};
ghost use Rattle.verb_rules.specs.Classes.{classes_of, has, is_listed};

use cca_vectors::Class;

/// A set of key classes: those of the keys that an operand may be.
#[derive(Clone, Copy, Debug, PartialEq, Eq)]
pub struct Classes {
    data_keys: bool,
    cipher_keys: bool,
    mac_keys: bool,
    exporters: bool,
    importers: bool,
    others: bool,
}

/// Whether a list has the class.
fn is_listed(list: &[Class], wanted: Class) -> bool
    ensures { result ≡ is_listed list.now wanted }
{
    list.iter().any(|class| *class == wanted)
}

impl Classes {
    /// The set of the classes of a list.
    pub fn of(list: &[Class]) -> Classes
        ensures set { result ≡ classes_of list.now }
        ensures members { (class : Class) → has result class ≡ is_listed list.now class }
    {
        Classes {
            data_keys: is_listed(list, Class::Data),
            cipher_keys: is_listed(list, Class::Cipher),
            mac_keys: is_listed(list, Class::Mac),
            exporters: is_listed(list, Class::Exporter),
            importers: is_listed(list, Class::Importer),
            others: is_listed(list, Class::Other),
        }
    }

    /// Whether the class is in the set.
    pub fn has(&self, class: Class) -> bool
        ensures { result ≡ has self.now class }
    {
        match class {
            Class::Data => self.data_keys,
            Class::Cipher => self.cipher_keys,
            Class::Mac => self.mac_keys,
            Class::Exporter => self.exporters,
            Class::Importer => self.importers,
            Class::Other => self.others,
        }
    }
}
