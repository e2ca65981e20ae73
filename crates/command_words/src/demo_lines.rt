//! The lines of a demo, written into memory.
ghost use Rattle.std.specs.Prelude.{◌≡◌, ◌≤◌, ◌<◌, ◌++◌, ◌∷◌, [], false, OnOk, IfOk};
ghost use Rattle.std.specs.Fmt.{digit_glyph};
ghost use Rattle.command_words.specs.Demo.{demo_text, joined, four_digits, four_hex_digits, key_set, key_made, key_used, key_tested, key_deleted, for_each};
ghost use Rattle.command_words.specs.Sections.{section_lines};

use device_cells::NoMemory;
use std::alloc::Global;

const FIRST_PART: &[u8; 48] = b"0102030405060708090a0b0c0d0e0f101112131415161718";

const SECOND_PART: &[u8; 48] = b"ffffffffffffffffffffffffffffffffffffffffffffffff";

/// The sections that have lines for each label.
#[derive(Clone, Copy, PartialEq, Eq)]
pub(crate) enum Section {
    /// The label is made, and a key goes into its record.
    Made,
    /// The key enciphers a block.
    Used,
    /// The key is tested.
    Tested,
    /// Every other label is deleted.
    Deleted,
}

/// The lines of `demo N`, each with its newline.
pub(crate) fn lines_of(alloc: Global, number: u32) -> Result<Vec<u8>, NoMemory>
    requires { number ≤ 1000 }
    ensures { IfOk result (λ text. text.items ≡ demo_text number) }
{
    let mut text = Vec::new(alloc);
    put_key_set(&mut text, FIRST_PART)?;
    put_section(&mut text, Section::Made, number)?;
    put_section(&mut text, Section::Used, number)?;
    put_key_set(&mut text, SECOND_PART)?;
    put_tested(&mut text, 0)?;
    put_line(&mut text, b"REENCIPHER role=DEFAULT", b"", b"", b"")?;
    put_section(&mut text, Section::Tested, number)?;
    put_section(&mut text, Section::Deleted, number)?;
    put_line(&mut text, b"CSNBKRL role=DEFAULT prefix=", b"", b"", b"")?;
    put_line(&mut text, b"CSNBMKP role=DEFAULT action=SET", b"", b"", b"")?;
    Ok(text)
}

// Puts the lines by which a master key of this part becomes the current one.
fn put_key_set(text: &mut Vec<u8>, part: &[u8]) -> Result<(), NoMemory>
    ensures { OnOk result (text.new.items ≡ text.old.items ++ joined (key_set part.now)) }
{
    put_line(
        text,
        b"CSNBMKP role=DEFAULT action=FIRST part=",
        b"",
        b"",
        part,
    )?;
    put_line(
        text,
        b"CSNBMKP role=DEFAULT action=LAST part=000000000000000000000000000000000000000000000000",
        b"",
        b"",
        b"",
    )?;
    put_line(text, b"CSNBMKP role=DEFAULT action=SET", b"", b"", b"")
}

// Puts the section's lines for the numbers below `count`.
fn put_section(text: &mut Vec<u8>, section: Section, count: u32) -> Result<(), NoMemory>
    requires { count ≤ 1000 }
    ensures { OnOk result
        (text.new.items ≡ text.old.items ++ joined (for_each (section_lines section) count)) }
{
    for i in 0..count {
        put_numbered(text, section, i)?;
    }
    Ok(())
}

// Puts the section's lines for one number.
fn put_numbered(text: &mut Vec<u8>, section: Section, i: u32) -> Result<(), NoMemory>
    requires { i < 1000 }
    ensures { OnOk result (text.new.items ≡ text.old.items ++ joined (section_lines section i)) }
{
    match section {
        Section::Made => put_made(text, i),
        Section::Used => put_used(text, i),
        Section::Tested => put_tested(text, i),
        Section::Deleted => put_deleted(text, i),
    }
}

// Puts the lines that make the label of this number.
fn put_made(text: &mut Vec<u8>, i: u32) -> Result<(), NoMemory>
    requires { i < 1000 }
    ensures { OnOk result (text.new.items ≡ text.old.items ++ joined (key_made i)) }
{
    let number = decimal_digits(i);
    let key = hex_digits(i);
    put_line(text, b"CSNBKRC role=DEFAULT label=KEY.", &number, b"", b"")?;
    put_line(
        text,
        b"CSNBCKI role=DEFAULT clear=000000000000",
        &key,
        b" to=L:KEY.",
        &number,
    )
}

// Puts the line that uses the key of this number.
fn put_used(text: &mut Vec<u8>, i: u32) -> Result<(), NoMemory>
    requires { i < 1000 }
    ensures { OnOk result (text.new.items ≡ text.old.items ++ joined (key_used i)) }
{
    let number = decimal_digits(i);
    put_line(
        text,
        b"CSNBENC role=DEFAULT key=L:KEY.",
        &number,
        b" iv=0000000000000000 pad=NONE text=0000000000000000",
        b"",
    )
}

// Puts the line that tests the key of this number.
fn put_tested(text: &mut Vec<u8>, i: u32) -> Result<(), NoMemory>
    requires { i < 1000 }
    ensures { OnOk result (text.new.items ≡ text.old.items ++ joined (key_tested i)) }
{
    let number = decimal_digits(i);
    put_line(text, b"CSNBKYT role=DEFAULT key=L:KEY.", &number, b"", b"")
}

// Puts the line that deletes the label of this number, where it is even.
fn put_deleted(text: &mut Vec<u8>, i: u32) -> Result<(), NoMemory>
    requires { i < 1000 }
    ensures { OnOk result (text.new.items ≡ text.old.items ++ joined (key_deleted i)) }
{
    if i % 2 != 0 {
        return Ok(());
    }
    let number = decimal_digits(i);
    put_line(text, b"CSNBKRD role=DEFAULT label=KEY.", &number, b"", b"")
}

// Puts one line, of four parts.
#[tactic(auto, unfolding(crate::specs::Demo::joined))]
fn put_line(
    text: &mut Vec<u8>,
    first: &[u8],
    second: &[u8],
    third: &[u8],
    fourth: &[u8],
) -> Result<(), NoMemory>
    ensures { OnOk result (text.new.items ≡ text.old.items
        ++ joined ((first.now ++ (second.now ++ (third.now ++ fourth.now))) ∷ [])) }
{
    text.extend_from_slice(first)?;
    text.extend_from_slice(second)?;
    text.extend_from_slice(third)?;
    text.extend_from_slice(fourth)?;
    text.push(b'\n')?;
    Ok(())
}

// A number below 10,000 in four decimal digits.
fn decimal_digits(i: u32) -> [u8; 4]
    requires { i < 10000 }
    ensures { result ≡ four_digits i }
{
    [
        b'0' + (i / 1000 % 10) as u8,
        b'0' + (i / 100 % 10) as u8,
        b'0' + (i / 10 % 10) as u8,
        b'0' + (i % 10) as u8,
    ]
}

// A number in four hexadecimal digits.
fn hex_digits(i: u32) -> [u8; 4]
    ensures { result ≡ four_hex_digits i }
{
    [
        hex_digit(i / 4096 % 16),
        hex_digit(i / 256 % 16),
        hex_digit(i / 16 % 16),
        hex_digit(i % 16),
    ]
}

fn hex_digit(digit: u32) -> u8
    requires { digit < 16 }
    ensures { result ≡ digit_glyph false digit }
{
    if digit < 10 {
        b'0' + digit as u8
    } else {
        b'a' - 10 + digit as u8
    }
}
