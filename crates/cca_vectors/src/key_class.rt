ghost use Rattle.std.specs.Prelude.{◌≡◌};

/// What a key is for, by byte 1 of its control vector.
#[derive(Clone, Copy, Debug, PartialEq, Eq)]
pub enum Class {
    Data,
    Cipher,
    Mac,
    Exporter,
    Importer,
    /// Every other byte: such a key is carried and not used.
    Other,
}

impl Class {
    ghost use Rattle.std.specs.Prelude.{◌≡◌};
    ghost use Rattle.cca_vectors.specs.Classes.{class_at};

    /// The class that byte 1 of a control vector stands for.
    pub(crate) fn of_byte(byte: u8) -> Class
        ensures { result ≡ class_at byte }
    {
        match byte {
            0x00 => Class::Data,
            0x03 => Class::Cipher,
            0x05 => Class::Mac,
            0x41 => Class::Exporter,
            0x42 => Class::Importer,
            _ => Class::Other,
        }
    }
}
