//! Kinds of characters, and texts that are names.

use cca_roles::{is_digit, is_label, is_label_byte, is_letter, is_role_name};

/// Characters, and whether each is a letter, a digit and a character of labels.
const KINDS: [(u8, bool, bool, bool); 13] = [
    (b'A', true, false, true),
    (b'Z', true, false, true),
    (b'@', false, false, true),
    (b'[', false, false, false),
    (b'a', false, false, false),
    (b'0', false, true, true),
    (b'9', false, true, true),
    (b'/', false, false, false),
    (b':', false, false, false),
    (b'#', false, false, true),
    (b'$', false, false, true),
    (b'.', false, false, true),
    (b'-', false, false, false),
];

/// Texts, and whether each is a label and the name of a role.
const TEXTS: [(&[u8], bool, bool); 11] = [
    (b"", false, false),
    (b"A", true, true),
    (b"TELLER12", true, true),
    (b"TELLER123", true, false),
    (b"1A", false, false),
    (b".A", false, false),
    (b"A.1", true, false),
    (b"#$@", true, false),
    (b"a", false, false),
    (
        b"A234567890123456789012345678901234567890123456789012345678901234",
        true,
        false,
    ),
    (
        b"A2345678901234567890123456789012345678901234567890123456789012345",
        false,
        false,
    ),
];

#[test]
fn kinds_of_characters(rt: HostRuntime) {
    for (c, letter, digit, label) in KINDS {
        let found = (is_letter(c), is_digit(c), is_label_byte(c));
        assert!(rt; found == (letter, digit, label), "{c}");
    }
}

#[test]
fn texts_that_are_names(rt: HostRuntime) {
    for (text, label, role) in TEXTS {
        assert!(rt;
            is_label(text) == label && is_role_name(text) == role,
            "{text:?}"
        );
    }
}
