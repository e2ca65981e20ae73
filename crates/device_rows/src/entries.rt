//! The entries of lines and their replies.
use audit_trail::Entry;
use audited_service::{LineScribe, Scribe};

/// Whether a field has a text at the front of zeros.
fn is_filled(field: &[u8], text: &[u8]) -> bool {
    field.starts_with(text) && (text.len() == field.len() || field.get(text.len()) == Some(&0))
}

/// A rule, and the texts of role, verb and label.
type Texts<'a> = (u8, &'a [u8], &'a [u8], &'a [u8]);

fn has_texts(entry: &Entry, wanted: Texts) -> bool {
    entry.rule == wanted.0
        && is_filled(&entry.role, wanted.1)
        && is_filled(&entry.verb, wanted.2)
        && is_filled(&entry.label, wanted.3)
        && entry.label_length as usize == wanted.3.len()
        && entry.is_whole()
}

/// Lines with a reply, also with one of no form, and the texts of their entries.
const ENTRIES: [(&[u8], &[u8], Texts<'static>); 9] = [
    (
        b"CSNBKRC role=DEFAULT label=PAY",
        b"OK\n",
        (0, b"DEFAULT", b"CSNBKRC", b"PAY"),
    ),
    (
        b"CSNBKRC role=TELLER label=PAY",
        b"NO 04 -\n",
        (4, b"TELLER", b"CSNBKRC", b"PAY"),
    ),
    (
        b"REENCIPHER role=R2345678",
        b"NO 30 -\n",
        (30, b"R2345678", b"REENCIPHER", b""),
    ),
    (
        b"REENCIPHER role=R1 action=AHEAD",
        b"OK changed=3\n",
        (0, b"R1", b"REENCIPHER", b""),
    ),
    (
        b"CSNBKEX role=R1 key=L:1ONE transport=L:TWO",
        b"NO 06 key\n",
        (6, b"R1", b"CSNBKEX", b"TWO"),
    ),
    (b"CSNBKTP role=DEFAULT", b"NO 01 -\n", (1, b"", b"", b"")),
    (b"", b"NO 01 -\n", (1, b"", b"", b"")),
    (
        b"CSNBKRD role=R1 label=A",
        b"",
        (0, b"R1", b"CSNBKRD", b"A"),
    ),
    (
        b"CSNBKRD role=R1 label=A",
        b"NO 9",
        (90, b"R1", b"CSNBKRD", b"A"),
    ),
];

/// Whether a line that isn't too long has an entry of these texts.
fn is_entered(line: &[u8], reply: &[u8], wanted: Texts) -> bool {
    line.len() <= 9_216 && has_texts(&LineScribe.entry(line, reply), wanted)
}

#[test]
fn entries_of_lines(rt: HostRuntime) {
    for (line, reply, wanted) in ENTRIES {
        assert!(rt; is_entered(line, reply, wanted), "{line:?}");
    }
    assert!(rt; has_texts(&LineScribe.too_long(b"NO 02 -\n"), (2, b"", b"", b"")));
}
