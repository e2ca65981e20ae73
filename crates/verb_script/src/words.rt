//! The words of a request line, and the texts of the fields in them.
ghost use Rattle.std.specs.Prelude.{◌≡◌, ◌≤◌, ◌==◌, nat_eq, [], ◌∷◌, drop, length, map, Some, None, option_copied, MatchOption, IfSome, if◌then◌else◌};
ghost use Rattle.std.specs.List.{position_or_len, starts_with};
ghost use Rattle.verb_script.specs.Grammar.{AreAccepted, meanings};
ghost use Rattle.verb_script.specs.Requests.{words, at_end, values_in};
ghost use Rattle.verb_script.specs.Rows.{field_seen, text_after, texts_at};
ghost use Rattle.verb_script.specs.Words.{words_left, unread};

use crate::fields::Field;
use memchr::memchr;

/// The place of the first space, or the length.
#[tactic(auto, using(crate::proofs::WordLemmas::first_space))]
fn word_end(text: &[u8]) -> usize
    ensures { result ≡ position_or_len (λ c. c == 32) text.now }
{
    memchr(b' ', text).unwrap_or(text.len())
}

/// The first word of a text, and what follows its space.
fn split_word(text: &[u8]) -> (&[u8], Option<&[u8]>)
    ensures { words text.now ≡ result.0.now ∷ words_left (option_copied result.1) }
{
    let end = word_end(text);
    if end < text.len() {
        (&text[..end], Some(&text[end + 1..]))
    } else {
        (text, None)
    }
}

/// What follows the prefix in a word.
fn after<'a>(word: &'a [u8], prefix: &[u8]) -> Option<&'a [u8]>
    ensures { option_copied result ≡ (if starts_with nat_eq word.now prefix.now then Some
        (drop (length prefix.now) word.now) else None) }
{
    word.strip_prefix(prefix)
}

/// The text of the field in a word: what follows its name and an equals sign, where it is one of the field's values.
fn text_in<'a>(word: &'a [u8], field: Field) -> Option<&'a [u8]>
    ensures { option_copied result ≡ text_after (field_seen field) word.now }
{
    let text = after(word, field.prefix())?;
    if field.accepts(text) {
        Some(text)
    } else {
        None
    }
}

/// The texts of a row's fields, one after another. No row has more than seven fields; what is behind the last text is empty.
#[derive(Clone, Copy)]
pub(crate) struct Texts<'a> {
    pub(crate) texts: [&'a [u8]; 7],
}

/// The words of a line that aren't read yet.
#[derive(Clone, Copy)]
pub(crate) struct Words<'a> {
    rest: Option<&'a [u8]>,
}

impl<'a> Words<'a> {
    /// All words of the line.
    pub(crate) fn of(line: &'a [u8]) -> Words<'a>
        ensures { unread result ≡ words line.now }
    {
        Words { rest: Some(line) }
    }

    /// The next word.
    pub(crate) fn next(&mut self) -> Option<&'a [u8]>
        ensures word { MatchOption result (unread self.old ≡ [])
            (λ word. unread self.old ≡ word.now ∷ unread self.new) }
        ensures rest { unread self.new ≡ drop 1 (unread self.old) }
    {
        let (word, rest) = split_word(self.rest?);
        self.rest = rest;
        Some(word)
    }

    /// The texts of the fields, in their order, where the words are those of the fields and no word is left.
    pub(crate) fn texts(mut self, fields: &[Field]) -> Option<Texts<'a>>
        requires { length fields.now ≤ 7 }
        ensures values { MatchOption result
            (values_in (map field_seen fields.now) (unread self.entry) ≡ None)
            (λ found. values_in (map field_seen fields.now) (unread self.entry)
            ≡ Some (meanings (map field_seen fields.now)
            (texts_at (map field_seen fields.now) 0 found.texts))) }
        ensures accepted { IfSome result
            (λ found. AreAccepted (map field_seen fields.now)
            (texts_at (map field_seen fields.now) 0 found.texts)) }
    {
        let mut texts: [&'a [u8]; 7] = [b""; 7];
        for (i, field) in fields.iter().enumerate() {
            texts[i] = text_in(self.next()?, *field)?;
        }
        self.end()?;
        Some(Texts { texts })
    }

    /// Some where no word is left.
    fn end(mut self) -> Option<()>
        ensures { MatchOption result (at_end (unread self.entry) ≡ None)
            (λ _. at_end (unread self.entry) ≡ Some []) }
    {
        match self.next() {
            None => Some(()),
            Some(_) => None,
        }
    }
}
