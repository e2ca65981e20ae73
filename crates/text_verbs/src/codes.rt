//! CSNBMGN and CSNBMVR over a whole text, and what is shown of its code.
ghost use Rattle.std.specs.Prelude.{◌≡◌, ◌≤◌, ◌/◌, ◌∷◌, [], ℕ, IsTrue, codes, length, take, List};
ghost use Rattle.std.specs.Str.{bytes_eq};
ghost use Rattle.des_blocks.specs.Texts.{text_in};
ghost use Rattle.key_cells.specs.Lease.{bench_of};
ghost use Rattle.mac_verbs.specs.Codes.{code_of, is_code};
ghost use Rattle.multi_encipher.specs.Bundles.{ChangesKeyAt};
ghost use Rattle.line_service.specs.Replies.{Hex, Text};
ghost use Rattle.verb_rules.specs.Keys.{opened};
ghost use Rattle.verb_script.specs.Grammar.{accepts, mac_text};
ghost use Rattle.verb_script.specs.Values.{hex_value};
ghost use Rattle.cca_machine.specs.Act.{yes_or_no};
ghost use Rattle.cca_machine.specs.Choices.{mac_length_named};
ghost use Rattle.text_verbs.specs.CodePurposes.{IsPurpose, code_fields, purpose_text, whole_code_row, IsCoded};
ghost use Rattle.cca_machine.specs.Decided.{SettlesOver, asked, HasTextFor};
ghost use Rattle.cca_machine.specs.Deciding.{Shows};

use crate::texts::{judge_code, put_text};
use cca_machine::{Effect, Granted, key_in, mac_length_of, mac_rule_of};
use key_cells::{KeyPlace, Lease};
use mac_verbs::{mac_generate, mac_verify};
use verb_rules::{Judged, MacRule, TextUse};
use verb_script::{ReplyBuffer, decode};

/// What the code of a text is for.
#[derive(Clone, Copy)]
pub enum Purpose<'a> {
    /// CSNBMGN: so many of its leftmost bytes are shown.
    Generate(&'a [u8]),
    /// CSNBMVR: it is shown whether it begins with the bytes that these digits spell.
    Verify(&'a [u8]),
}

/// Puts the bytes of a code that the digits spell, and tells how many they are.
fn put_code(digits: &[u8], bytes: &mut [u8; 8]) -> usize
    requires { IsTrue (accepts mac_text digits.now) }
    ensures code { take result bytes.new ≡ hex_value digits.now }
    ensures fewest { 4 ≤ result }
    ensures most { result ≤ 8 }
{
    let count = digits.len() / 2;
    decode(digits, &mut bytes[..count]);
    count
}

/// The first bytes of a code.
fn front(code: &[u8; 8], count: usize) -> &[u8]
    requires { count ≤ 8 }
    ensures { result.now ≡ take count code.now }
{
    &code[..count]
}

/// Whether the code begins with the bytes that the digits spell.
fn begins(code: &[u8; 8], digits: &[u8]) -> bool
    requires { IsTrue (accepts mac_text digits.now) }
    ensures { let mac = hex_value digits.now in
        result ≡ bytes_eq mac (take (length mac) code.now) }
{
    let mut bytes = [0; 8];
    let count = put_code(digits, &mut bytes);
    let mac = &bytes[..count];
    mac == front(code, mac.len())
}

/// Whether the text in the workbench has the code that the digits spell.
fn has_code(lease: &mut Lease, key: &Judged, method: MacRule, digits: &[u8]) -> bool
    requires coded { IsCoded method key.now (bench_of lease.old).text.size }
    requires digits { IsTrue (accepts mac_text digits.now) }
    ensures same { let bench = bench_of lease.old in
        result ≡ is_code method (opened bench key.now) (text_in lease.old) (hex_value digits.now) }
    ensures stays { ChangesKeyAt KeyPlace.Key lease.old lease.new }
{
    let mut bytes = [0; 8];
    let count = put_code(digits, &mut bytes);
    mac_verify(lease, key, method, &bytes[..count])
}

fn show_code(code: &[u8; 8], count: &[u8], reply: &mut ReplyBuffer)
    requires empty { reply.old ≡ [] }
    ensures { Shows (Hex (codes "mac") (take (mac_length_named count.now) code.now) ∷ [])
        reply.new }
{
    reply.ok();
    reply.hex("mac", front(code, mac_length_of(count)));
}

fn show_match(same: bool, reply: &mut ReplyBuffer)
    requires { reply.old ≡ [] }
    ensures { Shows (Text (codes "match") (yes_or_no same) ∷ []) reply.new }
{
    reply.ok();
    if same {
        reply.text("match", b"yes");
    } else {
        reply.text("match", b"no");
    }
}

/// Shows of a code what it is for.
pub(crate) fn show_for(purpose: Purpose<'_>, code: &[u8; 8], reply: &mut ReplyBuffer)
    requires purpose { IsPurpose purpose }
    requires empty { reply.old ≡ [] }
    ensures { Shows (code_fields purpose.entry code.now) reply.new }
{
    match purpose {
        Purpose::Generate(length) => show_code(code, length, reply),
        Purpose::Verify(mac) => show_match(begins(code, mac), reply),
    }
}

/// Shows of the code of the text in the workbench what it is for.
fn show_whole(
    purpose: Purpose<'_>,
    key: &Judged,
    method: MacRule,
    lease: &mut Lease,
    reply: &mut ReplyBuffer,
)
    requires purpose { IsPurpose purpose }
    requires coded { IsCoded method key.now (bench_of lease.old).text.size }
    requires empty { reply.old ≡ [] }
    ensures shows { let clear = opened (bench_of lease.old) key.now in
        Shows (code_fields purpose.entry (code_of method clear (text_in lease.old))) reply.new }
    ensures stays { ChangesKeyAt KeyPlace.Key lease.old lease.new }
{
    match purpose {
        Purpose::Generate(length) => show_code(&mac_generate(lease, key, method), length, reply),
        Purpose::Verify(mac) => show_match(has_code(lease, key, method, mac), reply),
    }
}

/// Shows of the code of the text under the key what it is for. A text of a wrong length is refused,
/// and a key that the rule doesn't take.
pub(crate) fn whole_code(
    granted: &Granted,
    rule: &[u8],
    purpose: Purpose<'_>,
    text: &[u8],
    lease: &mut Lease,
    reply: &mut ReplyBuffer,
) -> Effect
    requires given { HasTextFor granted.now text.now reply.old }
    requires purpose { IsPurpose purpose }
    ensures settles { (role key : List ℕ)
        → SettlesOver (asked (whole_code_row purpose.entry)
        (role ∷ key ∷ rule.now ∷ purpose_text purpose.entry ∷ text.now ∷ []))
        granted.now lease.old lease.new result reply.new }
{
    let key = key_in(&granted.first);
    let method = mac_rule_of(rule);
    if let Err(broken) = judge_code(TextUse::Mac, text, method, key) {
        return Effect::Refused(broken);
    }
    put_text(text, lease);
    show_whole(purpose, key, method, lease, reply);
    Effect::Shown
}
