//! A request, and that a line spells none.
use cca_roles::{AccessPoints, RoleName};
use cca_vectors::KeyType;

/// The line spells no request.
#[derive(Debug, Clone, Copy, PartialEq, Eq)]
pub struct FormFault;

/// A request. A field that is a slice is the part of the line that holds its value. A `key` is `T:` and the 128
/// hexadecimal digits of a token, or `L:` and a label. Where a label is wanted, one or more characters from X'21' to
/// X'7E' stand, which needn't be a label.
#[derive(Clone, Copy)]
pub enum Request<'a> {
    /// Key_Token_Parse: a key token, in 128 hexadecimal digits.
    Csnbktp {
        role: RoleName,
        token: &'a [u8],
    },
    /// Encipher: a text enciphered under a key in a chain of blocks from `iv`.
    Csnbenc {
        role: RoleName,
        key: &'a [u8],
        iv: &'a [u8],
        pad: &'a [u8],
        text: &'a [u8],
    },
    /// Encipher FIRST: the first segment of a text, enciphered in a chain of blocks from `iv`.
    CsnbencFirst {
        role: RoleName,
        key: &'a [u8],
        segment: &'a [u8],
        iv: &'a [u8],
        text: &'a [u8],
    },
    /// Encipher MIDDLE: a further segment, from the chain that the segment before left, in 32 hexadecimal digits.
    CsnbencMiddle {
        role: RoleName,
        key: &'a [u8],
        segment: &'a [u8],
        chain: &'a [u8],
        text: &'a [u8],
    },
    /// Encipher LAST: the last segment of a text.
    CsnbencLast {
        role: RoleName,
        key: &'a [u8],
        segment: &'a [u8],
        chain: &'a [u8],
        pad: &'a [u8],
        text: &'a [u8],
    },
    /// Decipher: the inverse of Encipher.
    Csnbdec {
        role: RoleName,
        key: &'a [u8],
        iv: &'a [u8],
        pad: &'a [u8],
        text: &'a [u8],
    },
    /// Decipher FIRST: the first segment of an enciphered text.
    CsnbdecFirst {
        role: RoleName,
        key: &'a [u8],
        segment: &'a [u8],
        iv: &'a [u8],
        text: &'a [u8],
    },
    /// Decipher MIDDLE: a further segment, from the chain that the segment before left.
    CsnbdecMiddle {
        role: RoleName,
        key: &'a [u8],
        segment: &'a [u8],
        chain: &'a [u8],
        text: &'a [u8],
    },
    /// Decipher LAST: the last segment of an enciphered text.
    CsnbdecLast {
        role: RoleName,
        key: &'a [u8],
        segment: &'a [u8],
        chain: &'a [u8],
        pad: &'a [u8],
        text: &'a [u8],
    },
    /// MAC_Generate: the message authentication code of a text, 4, 6 or 8 bytes of it.
    Csnbmgn {
        role: RoleName,
        key: &'a [u8],
        rule: &'a [u8],
        length: &'a [u8],
        text: &'a [u8],
    },
    /// MAC_Generate FIRST: the first segment of a text.
    CsnbmgnFirst {
        role: RoleName,
        key: &'a [u8],
        rule: &'a [u8],
        segment: &'a [u8],
        text: &'a [u8],
    },
    /// MAC_Generate MIDDLE: a further segment, from the chain that the segment before left.
    CsnbmgnMiddle {
        role: RoleName,
        key: &'a [u8],
        rule: &'a [u8],
        segment: &'a [u8],
        chain: &'a [u8],
        text: &'a [u8],
    },
    /// MAC_Generate LAST: the last segment, and the message authentication code of the whole text.
    CsnbmgnLast {
        role: RoleName,
        key: &'a [u8],
        rule: &'a [u8],
        segment: &'a [u8],
        length: &'a [u8],
        chain: &'a [u8],
        text: &'a [u8],
    },
    /// MAC_Verify: whether a text has this code.
    Csnbmvr {
        role: RoleName,
        key: &'a [u8],
        rule: &'a [u8],
        mac: &'a [u8],
        text: &'a [u8],
    },
    /// MAC_Verify FIRST: the first segment of a text.
    CsnbmvrFirst {
        role: RoleName,
        key: &'a [u8],
        rule: &'a [u8],
        segment: &'a [u8],
        text: &'a [u8],
    },
    /// MAC_Verify MIDDLE: a further segment, from the chain that the segment before left.
    CsnbmvrMiddle {
        role: RoleName,
        key: &'a [u8],
        rule: &'a [u8],
        segment: &'a [u8],
        chain: &'a [u8],
        text: &'a [u8],
    },
    /// MAC_Verify LAST: the last segment, and whether the whole text has this code.
    CsnbmvrLast {
        role: RoleName,
        key: &'a [u8],
        rule: &'a [u8],
        segment: &'a [u8],
        mac: &'a [u8],
        chain: &'a [u8],
        text: &'a [u8],
    },
    /// Key_Test: the first bytes of a block of zeros under a key.
    Csnbkyt {
        role: RoleName,
        key: &'a [u8],
    },
    /// Clear_Key_Import: a clear DATA key, in 16 hexadecimal digits; `to` is `-`, or `L:` and a label.
    Csnbcki {
        role: RoleName,
        clear: &'a [u8],
        to: &'a [u8],
    },
    /// Random_Number_Generate: eight random bytes.
    Csnbrng {
        role: RoleName,
        form: &'a [u8],
    },
    /// Key_Generate OP: a key for here, of 8 or 16 bytes, or DOUBLE-O, of 16 whose halves are unique.
    CsnbkgnOp {
        role: RoleName,
        form: &'a [u8],
        length: &'a [u8],
        type1: KeyType,
        to: &'a [u8],
    },
    /// Key_Generate OPEX or OPIM: a key for here, and the same key for elsewhere under a transport key.
    CsnbkgnPair {
        role: RoleName,
        form: &'a [u8],
        length: &'a [u8],
        type1: KeyType,
        type2: KeyType,
        transport2: &'a [u8],
        to: &'a [u8],
    },
    /// Key_Generate IMEX, EXEX or IMIM: a key for elsewhere, twice, each time under a transport key.
    CsnbkgnOut {
        role: RoleName,
        form: &'a [u8],
        length: &'a [u8],
        type1: KeyType,
        type2: KeyType,
        transport1: &'a [u8],
        transport2: &'a [u8],
    },
    /// Key_Import: an external token, in 128 hexadecimal digits, brought from a transport key under the master key.
    Csnbkim {
        role: RoleName,
        token: &'a [u8],
        transport: &'a [u8],
        to: &'a [u8],
    },
    /// Key_Export: a key brought from the master key under a transport key.
    Csnbkex {
        role: RoleName,
        key: &'a [u8],
        transport: &'a [u8],
    },
    /// Prohibit_Export: a key that may be exported no longer.
    Csnbpex {
        role: RoleName,
        key: &'a [u8],
        to: &'a [u8],
    },
    /// Key_Token_Change: a token, in 128 hexadecimal digits, brought under the current or the new master key.
    Csnbktc {
        role: RoleName,
        rule: &'a [u8],
        token: &'a [u8],
    },
    /// Key_Part_Import FIRST: the first part of a key of this type, in 16 or 32 hexadecimal digits.
    CsnbkpiFirst {
        role: RoleName,
        rule: &'a [u8],
        kind: KeyType,
        part: &'a [u8],
        to: &'a [u8],
    },
    /// Key_Part_Import MIDDLE or LAST: a further part, as long as the key.
    CsnbkpiMiddle {
        role: RoleName,
        rule: &'a [u8],
        key: &'a [u8],
        part: &'a [u8],
        to: &'a [u8],
    },
    /// Key_Translate: an external token, in 128 hexadecimal digits, brought from one transport key under another.
    Csnbktr {
        role: RoleName,
        token: &'a [u8],
        transport1: &'a [u8],
        transport2: &'a [u8],
    },
    /// Key_Record_Create: the label gets a record with no key.
    Csnbkrc {
        role: RoleName,
        label: &'a [u8],
    },
    /// Key_Record_Write: the label's record gets the key of a token, in 128 hexadecimal digits.
    Csnbkrw {
        role: RoleName,
        label: &'a [u8],
        token: &'a [u8],
    },
    /// Key_Record_Read: the token of the label's record.
    Csnbkrr {
        role: RoleName,
        label: &'a [u8],
    },
    /// Key_Record_Delete: the label and its record are no longer held.
    Csnbkrd {
        role: RoleName,
        label: &'a [u8],
    },
    /// Key_Record_List: the labels that begin with the prefix, 0 to 64 characters that may stand in a label.
    Csnbkrl {
        role: RoleName,
        prefix: &'a [u8],
    },
    /// Master_Key_Process FIRST, MIDDLE or LAST: a part of the new master key, in 48 hexadecimal digits.
    CsnbmkpPart {
        role: RoleName,
        action: &'a [u8],
        part: &'a [u8],
    },
    /// Master_Key_Process CLEAR: the new master key register is emptied.
    CsnbmkpClear {
        role: RoleName,
        action: &'a [u8],
    },
    /// Master_Key_Process SET: the new master key becomes the current one.
    CsnbmkpSet {
        role: RoleName,
        action: &'a [u8],
    },
    /// Access_Control_Initialization DEFINE: a role gets these access control points.
    CsuaaciDefine {
        role: RoleName,
        action: &'a [u8],
        name: RoleName,
        points: AccessPoints,
    },
    /// Access_Control_Initialization REMOVE: the role is no longer held.
    CsuaaciRemove {
        role: RoleName,
        action: &'a [u8],
        name: RoleName,
    },
    /// Every label under the old master key is brought under the current one.
    Reencipher {
        role: RoleName,
    },
    /// Every label under the current master key is sealed under the new one besides.
    ReencipherAhead {
        role: RoleName,
        action: &'a [u8],
    },
    /// Of every label that is ahead the second token is taken away again.
    ReencipherDrop {
        role: RoleName,
        action: &'a [u8],
    },
}
