//! The types of keys, by name, and the pairs of types of which keys can be generated together.
ghost use Rattle.std.specs.Prelude.{◌≡◌, ◌↔◌, Some};
ghost use Rattle.cca_vectors.specs.declared.key_type.KeyType.{KeyType};
ghost use Rattle.cca_vectors.specs.KeyTypes.{is_listed_pair, is_pair, type_name, type_named};

/// What a key is generated for: the type says which control vector it gets.
#[derive(Clone, Copy, Debug, PartialEq, Eq)]
pub enum KeyType {
    /// A DATA key with every use.
    Data,
    /// A DATA key that enciphers and deciphers.
    Datac,
    /// A DATA key that makes and verifies message authentication codes.
    Datam,
    /// A DATA key that verifies message authentication codes.
    Datamv,
    /// A CIPHER key that enciphers and deciphers.
    Cipher,
    /// A CIPHER key that enciphers.
    Encipher,
    /// A CIPHER key that deciphers.
    Decipher,
    /// A MAC key that makes and verifies message authentication codes.
    Mac,
    /// A MAC key that verifies message authentication codes.
    Macver,
    /// A transport key under which keys are exported.
    Exporter,
    /// A transport key under which keys are imported.
    Importer,
    /// A transport key to which keys are translated.
    Okeyxlat,
    /// A transport key from which keys are translated.
    Ikeyxlat,
}

const KEY_TYPES: [KeyType; 13] = [
    KeyType::Data,
    KeyType::Datac,
    KeyType::Datam,
    KeyType::Datamv,
    KeyType::Cipher,
    KeyType::Encipher,
    KeyType::Decipher,
    KeyType::Mac,
    KeyType::Macver,
    KeyType::Exporter,
    KeyType::Importer,
    KeyType::Okeyxlat,
    KeyType::Ikeyxlat,
];

impl KeyType {
    fn name(self) -> &'static [u8]
        ensures { result.now ≡ type_name self }
    {
        match self {
            KeyType::Data => b"DATA",
            KeyType::Datac => b"DATAC",
            KeyType::Datam => b"DATAM",
            KeyType::Datamv => b"DATAMV",
            KeyType::Cipher => b"CIPHER",
            KeyType::Encipher => b"ENCIPHER",
            KeyType::Decipher => b"DECIPHER",
            KeyType::Mac => b"MAC",
            KeyType::Macver => b"MACVER",
            KeyType::Exporter => b"EXPORTER",
            KeyType::Importer => b"IMPORTER",
            KeyType::Okeyxlat => b"OKEYXLAT",
            KeyType::Ikeyxlat => b"IKEYXLAT",
        }
    }

    /// The type with this name, in capitals; none where the text is no name of a type.
    pub fn read(text: &[u8]) -> Option<KeyType>
        ensures value { result ≡ type_named text.now }
        ensures named { (kind : KeyType) → (result ≡ Some kind) ↔ (text.now ≡ type_name kind) }
    {
        type_named(text)
    }
}

fn type_named(text: &[u8]) -> Option<KeyType>
    ensures { result ≡ type_named text.now }
{
    KEY_TYPES.iter().copied().find(|kind| kind.name() == text)
}

/// Whether the types stand in the list of pairs in this order.
fn is_listed_pair(first: KeyType, second: KeyType) -> bool
    ensures { result ≡ is_listed_pair first second }
{
    match first {
        KeyType::Data => second == KeyType::Data,
        KeyType::Datac => second == KeyType::Datac,
        KeyType::Datam => second == KeyType::Datam || second == KeyType::Datamv,
        KeyType::Cipher => {
            second == KeyType::Cipher || second == KeyType::Encipher || second == KeyType::Decipher
        }
        KeyType::Encipher => second == KeyType::Decipher,
        KeyType::Mac => second == KeyType::Mac || second == KeyType::Macver,
        KeyType::Exporter => second == KeyType::Importer || second == KeyType::Ikeyxlat,
        KeyType::Importer => second == KeyType::Okeyxlat,
        KeyType::Okeyxlat => second == KeyType::Ikeyxlat,
        KeyType::Datamv | KeyType::Decipher | KeyType::Macver | KeyType::Ikeyxlat => false,
    }
}

/// Whether a key of the one type and a key of the other are a pair: both orders of a pair are.
pub fn pairs(first: KeyType, second: KeyType) -> bool
    ensures { result ≡ is_pair first second }
{
    is_listed_pair(first, second) || is_listed_pair(second, first)
}
