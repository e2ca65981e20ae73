//! What a request needs before its verb decides, as a table: access control points, the master key, and what is asked of its
//! operands.
ghost use Rattle.std.specs.Prelude.{◌≡◌, ◌∷◌, [], Some, true, false, codes};
ghost use Rattle.std.specs.Int.RustNames.{bit_or};
ghost use Rattle.verb_script.specs.Parsed.{seen};
ghost use Rattle.cca_machine.specs.Actions.{part_action};
ghost use Rattle.cca_machine.specs.Choices.{target_named};
ghost use Rattle.cca_machine.specs.Operands.{internal_key, no_operands, one_operand};
ghost use Rattle.cca_machine.specs.Points.{action_points, target_points, change_points};
ghost use Rattle.cca_machine.specs.FieldWords.{IsPartAction};
ghost use Rattle.cca_machine.specs.Granted.{IsAccepted};
ghost use Rattle.request_rules.specs.Judging.{seen_operands};
ghost use Rattle.request_rules.specs.Needing.{IsNeeded, Needs};

use crate::operands::{
    FIVE_CLASSES, Operands, csnbkex, csnbkgn_out, csnbkgn_pair, csnbkim, csnbkpi_middle, csnbkrw,
    csnbktc, csnbktr, csnbpex, key_operand, no_operands, one_operand,
};
use cca_machine::{Ask, part_action_of, target_of};
use cca_roles::AccessPoints;
use cca_vectors::Class;
use key_transport::Target;
use master_registers::Action;
use verb_rules::Usage;
use verb_script::{Request, named_label};

/// What a request needs.
#[derive(Clone, Copy)]
pub(crate) struct Needed<'a> {
    /// Access control points.
    pub(crate) points: AccessPoints,
    /// Whether rule 05 is asked.
    pub(crate) master: bool,
    /// Its operands.
    pub(crate) operands: Operands<'a>,
}

/// The points and the master key.
fn needs<'a>(points: AccessPoints, operands: Operands<'a>) -> Needed<'a>
    ensures { Needs points true (seen_operands operands.entry) result }
{
    Needed {
        points,
        master: true,
        operands,
    }
}

/// The points, and no master key.
fn without_master<'a>(points: AccessPoints, operands: Operands<'a>) -> Needed<'a>
    ensures { Needs points false (seen_operands operands.entry) result }
{
    Needed {
        points,
        master: false,
        operands,
    }
}

/// The access control points that an action needs.
fn action_points(action: Action) -> AccessPoints
    ensures { result ≡ action_points action }
{
    match action {
        Action::First => AccessPoints::MK_FIRST,
        Action::Middle => AccessPoints::MK_COMBINE,
        Action::Last => AccessPoints::MK_COMBINE,
        Action::Clear => AccessPoints::MK_CLEAR,
        Action::Set => AccessPoints::MK_SET,
    }
}

/// A key that goes into a record needs the point of CSNBKRW too.
fn target_points(to: &[u8]) -> AccessPoints
    ensures { result ≡ target_points to.now }
{
    match named_label(to) {
        Some(_) => AccessPoints::KRW,
        None => AccessPoints::empty(),
    }
}

/// An action that takes a key part needs the point of its own.
fn part_points(action: &[u8]) -> AccessPoints
    requires { IsPartAction action.now }
    ensures { result ≡ action_points (part_action action.now) }
{
    action_points(part_action_of(action))
}

/// A token is changed to the current master key, or to the new one.
fn change_points(rule: &[u8]) -> AccessPoints
    ensures { result ≡ change_points (target_named rule.now) }
{
    match target_of(rule) {
        Target::Current => AccessPoints::KTC_CURRENT,
        Target::New => AccessPoints::KTC_NEW,
    }
}

/// The points and the master key; and the point of CSNBKRW too, where the key goes into a record.
fn needs_with_target<'a>(points: AccessPoints, to: &[u8], operands: Operands<'a>) -> Needed<'a>
    ensures { Needs (bit_or points (target_points to.now)) true
        (seen_operands operands.entry) result }
{
    needs(points.union(target_points(to)), operands)
}

/// The same of a request that asks nothing but where its key goes.
fn needs_target<'a>(points: AccessPoints, to: &'a [u8]) -> Needed<'a>
    ensures { Needs (bit_or points (target_points to.now)) true
        (one_operand (record { name = codes "to"; text = to.now; ask = Ask.Target })) result }
{
    needs_with_target(points, to, one_operand("to", to, Ask::Target))
}

/// The points and a key that enciphers or deciphers texts.
fn needs_cipher<'a>(points: AccessPoints, key: &'a [u8], usage: Usage) -> Needed<'a>
    ensures { Needs points true (one_operand (record {
      name = codes "key";
      text = key.now;
      ask = Ask.Key (internal_key (Class.Data ∷ Class.Cipher ∷ []) (Some usage));
    })) result }
{
    needs(
        points,
        key_operand(key, &[Class::Data, Class::Cipher], Some(usage)),
    )
}

/// The points and a key that makes or verifies codes.
fn needs_code<'a>(points: AccessPoints, key: &'a [u8], usage: Usage) -> Needed<'a>
    ensures { Needs points true (one_operand (record {
      name = codes "key";
      text = key.now;
      ask = Ask.Key (internal_key (Class.Data ∷ Class.Mac ∷ []) (Some usage));
    })) result }
{
    needs(
        points,
        key_operand(key, &[Class::Data, Class::Mac], Some(usage)),
    )
}

/// The points alone: no master key, and no operand. The arms of a match are to hold references alike, so this one takes a
/// text too.
fn needs_points<'a>(points: AccessPoints, _text: &'a [u8]) -> Needed<'a>
    ensures { Needs points false no_operands result }
{
    without_master(points, Operands::none())
}

/// The table.
pub(crate) fn needed_by<'a>(request: &Request<'a>) -> Needed<'a>
    requires accepted { IsAccepted (seen request.now) }
    ensures { IsNeeded (seen request.now) result }
{
    match *request {
        Request::Csnbktp { token, .. } => without_master(
            AccessPoints::empty(),
            one_operand("token", token, Ask::AnyToken),
        ),
        Request::Csnbenc { key, .. }
        | Request::CsnbencFirst { key, .. }
        | Request::CsnbencMiddle { key, .. }
        | Request::CsnbencLast { key, .. } => needs_cipher(AccessPoints::ENC, key, Usage::Encipher),
        Request::Csnbdec { key, .. }
        | Request::CsnbdecFirst { key, .. }
        | Request::CsnbdecMiddle { key, .. }
        | Request::CsnbdecLast { key, .. } => needs_cipher(AccessPoints::DEC, key, Usage::Decipher),
        Request::Csnbmgn { key, .. }
        | Request::CsnbmgnFirst { key, .. }
        | Request::CsnbmgnMiddle { key, .. }
        | Request::CsnbmgnLast { key, .. } => needs_code(
            AccessPoints::MGN,
            key,
            Usage::MacGenerate,
        ),
        Request::Csnbmvr { key, .. }
        | Request::CsnbmvrFirst { key, .. }
        | Request::CsnbmvrMiddle { key, .. }
        | Request::CsnbmvrLast { key, .. } => needs_code(AccessPoints::MVR, key, Usage::MacVerify),
        Request::Csnbkyt { key, .. } => needs(
            AccessPoints::KYT,
            key_operand(key, &FIVE_CLASSES, None),
        ),
        Request::Csnbcki { to, .. } => needs_target(AccessPoints::CKI, to),
        Request::Csnbrng { .. } => needs_points(AccessPoints::RNG, b""),
        Request::CsnbkgnOp { to, .. } => needs_target(AccessPoints::KGN_OP, to),
        Request::CsnbkgnPair {
            form,
            transport2,
            to,
            ..
        } => needs_with_target(
            AccessPoints::KGN_PAIR,
            to,
            csnbkgn_pair(form, transport2, to),
        ),
        Request::CsnbkgnOut {
            form,
            transport1,
            transport2,
            ..
        } => needs(
            AccessPoints::KGN_OUT,
            csnbkgn_out(form, transport1, transport2),
        ),
        Request::Csnbkim {
            token,
            transport,
            to,
            ..
        } => needs_with_target(AccessPoints::KIM, to, csnbkim(token, transport, to)),
        Request::Csnbkex { key, transport, .. } => needs(
            AccessPoints::KEX,
            csnbkex(key, transport),
        ),
        Request::Csnbpex { key, to, .. } => needs_with_target(
            AccessPoints::PEX,
            to,
            csnbpex(key, to),
        ),
        Request::Csnbktc { rule, token, .. } => needs(change_points(rule), csnbktc(token)),
        Request::CsnbkpiFirst { to, .. } => needs_target(AccessPoints::KPI_FIRST, to),
        Request::CsnbkpiMiddle { key, to, .. } => needs_with_target(
            AccessPoints::KPI_COMBINE,
            to,
            csnbkpi_middle(key, to),
        ),
        Request::Csnbktr {
            token,
            transport1,
            transport2,
            ..
        } => needs(AccessPoints::KTR, csnbktr(token, transport1, transport2)),
        Request::Csnbkrc { label, .. } => without_master(
            AccessPoints::KRC,
            one_operand("label", label, Ask::NewLabel),
        ),
        Request::Csnbkrw { label, token, .. } => needs(AccessPoints::KRW, csnbkrw(label, token)),
        Request::Csnbkrr { label, .. } => needs(
            AccessPoints::KRR,
            one_operand("label", label, Ask::Record),
        ),
        Request::Csnbkrd { label, .. } => without_master(
            AccessPoints::KRD,
            one_operand("label", label, Ask::Held),
        ),
        Request::Csnbkrl { prefix, .. } => needs_points(AccessPoints::KRL, prefix),
        Request::CsnbmkpPart { action, .. } => needs_points(part_points(action), action),
        Request::CsnbmkpClear { .. } => needs_points(action_points(Action::Clear), b""),
        Request::CsnbmkpSet { .. } => needs_points(action_points(Action::Set), b""),
        Request::CsuaaciDefine { .. } | Request::CsuaaciRemove { .. } => needs_points(
            AccessPoints::ROLES,
            b"",
        ),
        Request::Reencipher { .. }
        | Request::ReencipherAhead { .. }
        | Request::ReencipherDrop { .. } => needs(AccessPoints::REENC, no_operands(b"")),
    }
}
