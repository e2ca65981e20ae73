//! Which verb over a text is asked, whole or in segments, with what it takes of the request.
ghost use Rattle.std.specs.Prelude.{◌≡◌, false, Bool, IfSome, IsNone, List, ℕ};
ghost use Rattle.verb_script.specs.Parsed.{seen};
ghost use Rattle.cca_machine.specs.Decided.{SettlesOver};
ghost use Rattle.cca_machine.specs.Operands.{is_over_text};
ghost use Rattle.text_verbs.specs.TextWorks.{IsWorkOf, MayWork, work_request};

use crate::code_segments::{first_code_segment, last_code_segment, middle_code_segment};
use crate::codes::{Purpose, whole_code};
use crate::segments::{first_segment, last_segment, middle_segment};
use crate::whole_texts::whole_text;
use cca_machine::{Effect, Granted};
use key_cells::Lease;
use text_segments::Mode;
use verb_script::{ReplyBuffer, Request};

/// What is asked of a text, which is the last of the fields.
#[derive(Clone, Copy)]
pub enum TextWork<'a> {
    /// A whole text, from `iv`, with its padding.
    Whole(Mode, &'a [u8], &'a [u8], &'a [u8]),
    /// The first segment, from `iv`.
    First(Mode, &'a [u8], &'a [u8]),
    /// A further segment, from the chain.
    Middle(Mode, &'a [u8], &'a [u8]),
    /// The last segment, from the chain, with its padding.
    Last(Mode, &'a [u8], &'a [u8], &'a [u8]),
    /// The code of a whole text by a rule, and what it is for.
    WholeCode(&'a [u8], Purpose<'a>, &'a [u8]),
    /// The first segment of a text that has a code by a rule.
    FirstCode(&'a [u8], &'a [u8]),
    /// A further one, from the chain.
    MiddleCode(&'a [u8], &'a [u8], &'a [u8]),
    /// The last one, from the chain, and what the code is for.
    LastCode(&'a [u8], &'a [u8], Purpose<'a>, &'a [u8]),
}

/// What the request asks of a text, where it is over one.
pub fn text_work<'a>(request: &Request<'a>) -> Option<TextWork<'a>>
    ensures work { IfSome result (IsWorkOf (seen request.now)) }
    ensures none { IsNone result → is_over_text (seen request.now).name ≡ false }
{
    match *request {
        Request::Csnbenc { iv, pad, text, .. } => Some(TextWork::Whole(
            Mode::Encipher,
            iv,
            pad,
            text,
        )),
        Request::CsnbencFirst { iv, text, .. } => Some(TextWork::First(Mode::Encipher, iv, text)),
        Request::CsnbencMiddle { chain, text, .. } => Some(TextWork::Middle(
            Mode::Encipher,
            chain,
            text,
        )),
        Request::CsnbencLast {
            chain,
            pad,
            text,
            ..
        } => Some(TextWork::Last(Mode::Encipher, chain, pad, text)),
        Request::Csnbdec { iv, pad, text, .. } => Some(TextWork::Whole(
            Mode::Decipher,
            iv,
            pad,
            text,
        )),
        Request::CsnbdecFirst { iv, text, .. } => Some(TextWork::First(Mode::Decipher, iv, text)),
        Request::CsnbdecMiddle { chain, text, .. } => Some(TextWork::Middle(
            Mode::Decipher,
            chain,
            text,
        )),
        Request::CsnbdecLast {
            chain,
            pad,
            text,
            ..
        } => Some(TextWork::Last(Mode::Decipher, chain, pad, text)),
        Request::Csnbmgn {
            rule,
            length,
            text,
            ..
        } => Some(TextWork::WholeCode(rule, Purpose::Generate(length), text)),
        Request::CsnbmgnFirst { rule, text, .. } => Some(TextWork::FirstCode(rule, text)),
        Request::CsnbmgnMiddle {
            rule,
            chain,
            text,
            ..
        } => Some(TextWork::MiddleCode(rule, chain, text)),
        Request::CsnbmgnLast {
            rule,
            length,
            chain,
            text,
            ..
        } => Some(TextWork::LastCode(rule, chain, Purpose::Generate(length), text)),
        Request::Csnbmvr {
            rule,
            mac,
            text,
            ..
        } => Some(TextWork::WholeCode(rule, Purpose::Verify(mac), text)),
        Request::CsnbmvrFirst { rule, text, .. } => Some(TextWork::FirstCode(rule, text)),
        Request::CsnbmvrMiddle {
            rule,
            chain,
            text,
            ..
        } => Some(TextWork::MiddleCode(rule, chain, text)),
        Request::CsnbmvrLast {
            rule,
            mac,
            chain,
            text,
            ..
        } => Some(TextWork::LastCode(rule, chain, Purpose::Verify(mac), text)),
        _ => None,
    }
}

/// Has the verb decide.
pub fn over_text(
    work: TextWork<'_>,
    granted: &Granted,
    lease: &mut Lease,
    reply: &mut ReplyBuffer,
) -> Effect
    requires may { MayWork granted.now work reply.old }
    ensures settles { (verifies : Bool) (role key segment : List ℕ)
        → SettlesOver (work_request work.entry verifies role key segment)
        granted.now lease.old lease.new result reply.new }
{
    match work {
        TextWork::Whole(mode, iv, pad, text) => whole_text(
            mode, granted, iv, pad, text, lease, reply,
        ),
        TextWork::First(mode, iv, text) => first_segment(mode, granted, iv, text, lease, reply),
        TextWork::Middle(mode, chain, text) => middle_segment(
            mode, granted, chain, text, lease, reply,
        ),
        TextWork::Last(mode, chain, pad, text) => last_segment(
            mode, granted, chain, pad, text, lease, reply,
        ),
        TextWork::WholeCode(rule, purpose, text) => whole_code(
            granted, rule, purpose, text, lease, reply,
        ),
        TextWork::FirstCode(rule, text) => first_code_segment(granted, rule, text, lease, reply),
        TextWork::MiddleCode(rule, chain, text) => middle_code_segment(
            granted, rule, chain, text, lease, reply,
        ),
        TextWork::LastCode(rule, chain, purpose, text) => last_code_segment(
            granted, rule, chain, purpose, text, lease, reply,
        ),
    }
}
