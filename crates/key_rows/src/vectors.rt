//! Control vectors, valid and not, what each permits, and the default ones of each type of key.
use crate::sealed_keys::bytes_of;
use cca_vectors::{KeyType, Length, Usage, VectorFault, default_of, vector_of};

/// Halves that are no control vector, and why: bytes of odd parity, bits of the anti-variant that are turned, a key form that
/// there isn't, and halves that don't belong together.
const FAULTS: [(u64, u64, VectorFault); 22] = [
    (
        0x0041_7c00_0341_0000,
        0x0041_7c00_0321_0000,
        VectorFault::Parity,
    ),
    (
        0x0041_7d00_0341_0000,
        0x0041_7d00_0321_0001,
        VectorFault::Parity,
    ),
    (0x0000_7d00_0000_0000, 0, VectorFault::AntiVariant),
    (
        0x0000_7d03_0341_0000,
        0x0000_7d00_0321_0000,
        VectorFault::AntiVariant,
    ),
    (
        0x0000_7d00_0341_0000,
        0x0000_7d00_0021_0000,
        VectorFault::AntiVariant,
    ),
    (0x0000_7d00_0360_0000, 0, VectorFault::Form),
    (
        0x0000_7d00_0300_0000,
        0x0000_7d00_0300_0000,
        VectorFault::Form,
    ),
    (0x0000_7d00_0341_0000, 0, VectorFault::Form),
    (
        0x0000_7d00_0341_0000,
        0x0000_7100_0321_0000,
        VectorFault::Form,
    ),
    (
        0x0000_7d00_0341_0000,
        0x0000_7d00_0341_0000,
        VectorFault::Form,
    ),
    (0x0041_7d00_03c0_0000, 0, VectorFault::Form),
    (
        0x0041_7d00_03c0_0000,
        0x0041_7d00_03c0_0000,
        VectorFault::Form,
    ),
    (
        0x0041_7d00_03c0_0000,
        0x0041_7d00_0321_0000,
        VectorFault::Form,
    ),
    (
        0x0041_7d00_03c0_0000,
        0x0041_7d00_0320_0000,
        VectorFault::Parity,
    ),
    (
        0x0041_7d00_03c0_0000,
        0x0041_7d00_03a3_0000,
        VectorFault::Form,
    ),
    (
        0x0041_7d00_03c0_0000,
        0x0042_7d00_03a0_0000,
        VectorFault::Form,
    ),
    (
        0x0041_7d00_0341_0000,
        0x0041_7d00_03a0_0000,
        VectorFault::Form,
    ),
    (
        0x0041_7d00_0300_0000,
        0x0041_7d00_03a0_0000,
        VectorFault::Form,
    ),
    // the forms 001, 011, 101 and 111 are none of a left half
    (0x0041_7d00_0321_0000, 0, VectorFault::Form),
    (
        0x0041_7d00_0360_0000,
        0x0041_7d00_0321_0000,
        VectorFault::Form,
    ),
    (
        0x0041_7d00_03a0_0000,
        0x0041_7d00_03a0_0000,
        VectorFault::Form,
    ),
    (0x0041_7d00_03e1_0000, 0, VectorFault::Form),
];

#[test]
fn each_fault_is_told(rt: HostRuntime) {
    for (left, right, fault) in FAULTS {
        let found = vector_of(&bytes_of(left, right)).err();
        assert!(rt; found == Some(fault), "at {left:x} {right:x}");
    }
}

/// Which of the nine uses a vector permits, in the order of the enum, and whether the key may be exported.
fn permissions(left: u64, right: u64) -> ([bool; 9], bool) {
    match vector_of(&bytes_of(left, right)) {
        Ok(vector) => (
            [
                vector.permits(Usage::Encipher),
                vector.permits(Usage::Decipher),
                vector.permits(Usage::MacGenerate),
                vector.permits(Usage::MacVerify),
                vector.permits(Usage::Transport),
                vector.permits(Usage::Translate),
                vector.permits(Usage::PairOperational),
                vector.permits(Usage::PairImportExport),
                vector.permits(Usage::PairSame),
            ],
            vector.exportable(),
        ),
        Err(_) => ([false; 9], false),
    }
}

/// The nine uses of a vector whose bits 18 to 22 are these, the most significant first.
fn uses_of(bits: u8) -> [bool; 9] {
    let encipher = bits & 0b10000 != 0;
    let decipher = bits & 0b01000 != 0;
    let generate = bits & 0b00100 != 0;
    let verify = bits & 0b00010 != 0;
    let translate = bits & 0b00001 != 0;
    [
        encipher, decipher, generate, verify, verify, translate, encipher, decipher, generate,
    ]
}

/// The all-zero vector, the default vectors, and a DATA key that may not be exported: the bits of their uses, and whether
/// the key may be exported.
const PERMITTED: [(u64, u64, u8, bool); 12] = [
    (0x0000_0000_0000_0000, 0, 0b11110, true),
    (0x0000_3c00_0300_0000, 0, 0b11110, false),
    (0x0000_7d00_0300_0000, 0, 0b11110, true),
    (0x0000_7100_0341_0000, 0x0000_7100_0321_0000, 0b11000, true),
    (0x0000_4d00_0341_0000, 0x0000_4d00_0321_0000, 0b00110, true),
    (0x0003_6000_0300_0000, 0, 0b10000, true),
    (0x0003_5000_0300_0000, 0, 0b01000, true),
    (0x0005_4400_0300_0000, 0, 0b00010, true),
    (0x0041_7d00_0341_0000, 0x0041_7d00_0321_0000, 0b11110, true),
    (0x0041_4200_0341_0000, 0x0041_4200_0321_0000, 0b00001, true),
    (0x0041_7d00_03c0_0000, 0x0041_7d00_03a0_0000, 0b11110, true),
    (0x0000_3c00_03c0_0000, 0x0000_3c00_03a0_0000, 0b11110, false),
];

#[test]
fn vectors_permit(rt: HostRuntime) {
    for (left, right, bits, export) in PERMITTED {
        let found = permissions(left, right);
        assert!(rt; found == (uses_of(bits), export), "at {left:x}");
    }
}

/// The halves of a default vector, where there is one.
type Halves = Option<(u64, u64)>;

/// The whole table of default vectors: of keys of 8 bytes, of 16, and of keys whose halves are guaranteed unique.
const DEFAULTS: [(KeyType, Halves, Halves, Halves); 13] = [
    (
        KeyType::Data,
        Some((0x0000_7d00_0300_0000, 0)),
        Some((0x0000_7d00_0341_0000, 0x0000_7d00_0321_0000)),
        Some((0x0000_7d00_03c0_0000, 0x0000_7d00_03a0_0000)),
    ),
    (
        KeyType::Datac,
        None,
        Some((0x0000_7100_0341_0000, 0x0000_7100_0321_0000)),
        Some((0x0000_7100_03c0_0000, 0x0000_7100_03a0_0000)),
    ),
    (
        KeyType::Datam,
        None,
        Some((0x0000_4d00_0341_0000, 0x0000_4d00_0321_0000)),
        Some((0x0000_4d00_03c0_0000, 0x0000_4d00_03a0_0000)),
    ),
    (
        KeyType::Datamv,
        None,
        Some((0x0000_4400_0341_0000, 0x0000_4400_0321_0000)),
        Some((0x0000_4400_03c0_0000, 0x0000_4400_03a0_0000)),
    ),
    (
        KeyType::Cipher,
        Some((0x0003_7100_0300_0000, 0)),
        None,
        None,
    ),
    (
        KeyType::Encipher,
        Some((0x0003_6000_0300_0000, 0)),
        None,
        None,
    ),
    (
        KeyType::Decipher,
        Some((0x0003_5000_0300_0000, 0)),
        None,
        None,
    ),
    (
        KeyType::Mac,
        Some((0x0005_4d00_0300_0000, 0)),
        Some((0x0005_4d00_0341_0000, 0x0005_4d00_0321_0000)),
        Some((0x0005_4d00_03c0_0000, 0x0005_4d00_03a0_0000)),
    ),
    (
        KeyType::Macver,
        Some((0x0005_4400_0300_0000, 0)),
        Some((0x0005_4400_0341_0000, 0x0005_4400_0321_0000)),
        Some((0x0005_4400_03c0_0000, 0x0005_4400_03a0_0000)),
    ),
    (
        KeyType::Exporter,
        None,
        Some((0x0041_7d00_0341_0000, 0x0041_7d00_0321_0000)),
        Some((0x0041_7d00_03c0_0000, 0x0041_7d00_03a0_0000)),
    ),
    (
        KeyType::Importer,
        None,
        Some((0x0042_7d00_0341_0000, 0x0042_7d00_0321_0000)),
        Some((0x0042_7d00_03c0_0000, 0x0042_7d00_03a0_0000)),
    ),
    (
        KeyType::Okeyxlat,
        None,
        Some((0x0041_4200_0341_0000, 0x0041_4200_0321_0000)),
        Some((0x0041_4200_03c0_0000, 0x0041_4200_03a0_0000)),
    ),
    (
        KeyType::Ikeyxlat,
        None,
        Some((0x0042_4200_0341_0000, 0x0042_4200_0321_0000)),
        Some((0x0042_4200_03c0_0000, 0x0042_4200_03a0_0000)),
    ),
];

/// The halves of the default vector of a type.
fn halves_of(kind: KeyType, length: Length) -> Halves {
    match default_of(kind, length) {
        Some(vector) => Some((
            u64::from_be_bytes(vector.left()),
            u64::from_be_bytes(vector.right()),
        )),
        None => None,
    }
}

#[test]
fn default_vectors(rt: HostRuntime) {
    for (kind, single, double, unique) in DEFAULTS {
        let found = [
            halves_of(kind, Length::Eight),
            halves_of(kind, Length::Sixteen),
            halves_of(kind, Length::Unique),
        ];
        assert!(rt; found == [single, double, unique], "{kind:?}");
    }
}

/// Halves, and the halves of the vector that forbids export: bit 1 of byte 2, counted from the most significant one, is off,
/// and the last bit of the byte turns with it.
const CLOSED: [(u64, u64, u64, u64); 7] = [
    (0x0000_0000_0000_0000, 0, 0x0000_3c00_0300_0000, 0),
    (0x0000_7d00_0300_0000, 0, 0x0000_3c00_0300_0000, 0),
    (0x0000_3c00_0300_0000, 0, 0x0000_3c00_0300_0000, 0),
    (
        0x0005_4d00_0341_0000,
        0x0005_4d00_0321_0000,
        0x0005_0c00_0341_0000,
        0x0005_0c00_0321_0000,
    ),
    (
        0x0041_7d00_0341_0000,
        0x0041_7d00_0321_0000,
        0x0041_3c00_0341_0000,
        0x0041_3c00_0321_0000,
    ),
    (
        0x0041_4200_0341_0000,
        0x0041_4200_0321_0000,
        0x0041_0300_0341_0000,
        0x0041_0300_0321_0000,
    ),
    (
        0x0041_7d00_03c0_0000,
        0x0041_7d00_03a0_0000,
        0x0041_3c00_03c0_0000,
        0x0041_3c00_03a0_0000,
    ),
];

/// Halves, and the halves of the vector of a part: bit 44 and, for the parity of byte 5, bit 47 are turned, there and back.
const PARTS: [(u64, u64, u64, u64); 6] = [
    (0x0000_0000_0000_0000, 0, 0x0000_0000_0000_0000, 0),
    (0x0000_7d00_0300_0000, 0, 0x0000_7d00_0309_0000, 0),
    (0x0003_7100_0300_0000, 0, 0x0003_7100_0309_0000, 0),
    (
        0x0005_4d00_0341_0000,
        0x0005_4d00_0321_0000,
        0x0005_4d00_0348_0000,
        0x0005_4d00_0328_0000,
    ),
    (
        0x0041_7d00_0341_0000,
        0x0041_7d00_0321_0000,
        0x0041_7d00_0348_0000,
        0x0041_7d00_0328_0000,
    ),
    (
        0x0041_7d00_03c0_0000,
        0x0041_7d00_03a0_0000,
        0x0041_7d00_03c9_0000,
        0x0041_7d00_03a9_0000,
    ),
];

/// The halves of the vector of a part, or of one that forbids export, which is made of these halves.
fn made_of(left: u64, right: u64, is_part: bool) -> Halves {
    let vector = vector_of(&bytes_of(left, right)).ok()?;
    let made = if is_part {
        vector.as_part()
    } else {
        vector.without_export()
    };
    Some((
        u64::from_be_bytes(made.left()),
        u64::from_be_bytes(made.right()),
    ))
}

#[test]
fn vectors_of_vectors(rt: HostRuntime) {
    for (left, right, closed_left, closed_right) in CLOSED {
        let found = made_of(left, right, false);
        assert!(rt; found == Some((closed_left, closed_right)), "{left:x}");
    }
    for (left, right, part_left, part_right) in PARTS {
        let there = made_of(left, right, true);
        let back = made_of(part_left, part_right, true);
        let wanted = (Some((part_left, part_right)), Some((left, right)));
        assert!(rt; (there, back) == wanted, "{left:x}");
    }
}
