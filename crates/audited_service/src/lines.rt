//! The line of a record.
ghost use Rattle.std.specs.Prelude.{◌≡◌, ◌+◌, ◌≤◌, ◌==◌, ◌++◌, [], length, position, IfSome};
ghost use Rattle.line_service.specs.Replies.{reply_limit};
ghost use Rattle.audited_service.specs.Lines.{text_of, word, record_line};

use audit_trail::Entry;
use itoa::Buffer;
use line_service::ReplyBuffer;

/// Writes the line of a record.
#[tactic(auto, unfolding(crate::specs::Lines::record_line))]
pub(crate) fn write_line(line: &mut ReplyBuffer, number: u64, entry: &Entry)
    requires { line.old ≡ [] }
    ensures { line.new ≡ record_line number entry.now }
{
    let mut digits = Buffer::new();
    line.more(digits.format(number).as_bytes());
    put_word(line, &[b'0' + entry.rule / 10, b'0' + entry.rule % 10]);
    put_word(line, text_of(&entry.role));
    put_word(line, text_of(&entry.verb));
    put_word(line, text_of(&entry.label));
    line.finish();
}

// Writes a space and the text, or `-` where it is empty.
#[tactic(auto, unfolding(crate::specs::Lines::word))]
fn put_word(line: &mut ReplyBuffer, text: &[u8])
    requires { length line.old + length text.now + 2 ≤ reply_limit }
    ensures bytes { line.new ≡ line.old ++ word text.now }
    ensures size { length line.new ≤ length line.old + length text.now + 2 }
{
    line.more(b" ");
    if text.is_empty() {
        line.more(b"-");
    } else {
        line.more(text);
    }
}

// What stands in a field before its first zero.
fn text_of(field: &[u8]) -> &[u8]
    ensures text { result.now ≡ text_of field.now }
    ensures size { length result.now ≤ length field.now }
{
    match first_zero(field) {
        Some(at) => &field[..at],
        None => field,
    }
}

// Where the first zero stands.
fn first_zero(field: &[u8]) -> Option<usize>
    ensures place { result ≡ position (λ byte. byte == 0) field.now }
    ensures within { IfSome result (λ at. at ≤ length field.now) }
{
    field.iter().position(|byte| *byte == 0)
}
