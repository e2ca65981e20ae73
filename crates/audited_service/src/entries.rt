//! The entry of a line and its reply.
ghost use Rattle.std.specs.Prelude.{◌≡◌, ◌≤◌, ◌<◌, ◌∷◌, ℕ, List, [], length, replicate, codes, slice_index, nat_eq, Some, None, IsTrue};
ghost use Rattle.std.specs.List.{starts_with};
ghost use Rattle.line_service.specs.Reading.{line_limit};
ghost use Rattle.verb_script.specs.Parsed.{seen};
ghost use Rattle.audit_trail.specs.Entries.{IsEntry, filled};
ghost use Rattle.audited_service.specs.LineEntries.{digit, rule_in, entry_with, entry_of};

use audit_trail::Entry;
use cca_roles::is_digit;
use key_cells::put_front;
use verb_script::{Request, parse_request};

/// The entry of a line that is no longer than a line may be, and of its reply.
pub fn line_entry(line: &[u8], reply: &[u8]) -> Entry
    requires { length line.now ≤ line_limit }
    ensures entry { result ≡ entry_of line.now reply.now }
    ensures whole { IsEntry result }
{
    let rule = rule_in(reply);
    match parse_request(line) {
        Ok(request) => request_entry(rule, &request),
        Err(_) => bare_entry(rule),
    }
}

/// The entry of a line that is too long, and of its reply.
pub fn long_line_entry(reply: &[u8]) -> Entry
    ensures entry { (line : List ℕ) → line_limit < length line
        → result ≡ entry_of line reply.now }
    ensures whole { IsEntry result }
{
    bare_entry(rule_in(reply))
}

/// The entry of a line that is no request.
fn bare_entry(rule: u8) -> Entry
    requires { rule < 100 }
    ensures entry { result ≡ entry_with rule None }
    ensures whole { IsEntry result }
{
    Entry {
        rule,
        role: [0; 8],
        verb: [0; 10],
        label: [0; 64],
        label_length: 0,
    }
}

/// The entry of a request.
fn request_entry(rule: u8, request: &Request) -> Entry
    requires { rule < 100 }
    ensures entry { result ≡ entry_with rule (Some (seen request.now)) }
    ensures whole { IsEntry result }
{
    let mut entry = bare_entry(rule);
    put_filled(&mut entry.role, request.role());
    put_filled(&mut entry.verb, request.verb().as_bytes());
    if let Some(label) = request.first_label() {
        put_filled(&mut entry.label, label);
        entry.label_length = label.len() as u8;
    }
    entry
}

/// Puts a text at the front of zeros.
fn put_filled(zeros: &mut [u8], text: &[u8])
    requires fits { length text.now ≤ length zeros.old }
    requires blank { zeros.old ≡ replicate (length zeros.old) 0 }
    ensures { zeros.new ≡ filled (length zeros.old) text.now }
{
    put_front(zeros, text);
}

/// The rule that a reply names.
fn rule_in(reply: &[u8]) -> u8
    ensures rule { result ≡ rule_in reply.now }
    ensures low { result < 100 }
{
    if !is_refusal(reply) {
        return 0;
    }
    10 * digit_at(reply, 3) + digit_at(reply, 4)
}

/// Whether a reply begins as a refusal does.
fn is_refusal(reply: &[u8]) -> bool
    ensures { result ≡ starts_with nat_eq reply.now (codes "NO ") }
{
    reply.starts_with(b"NO ")
}

/// What the decimal digit at a place counts; 0 where there is none.
fn digit_at(reply: &[u8], at: usize) -> u8
    ensures digit { result ≡ digit (slice_index reply.now at) }
    ensures low { result < 10 }
{
    match reply.get(at) {
        Some(c) if is_digit(*c) => *c - b'0',
        _ => 0,
    }
}
