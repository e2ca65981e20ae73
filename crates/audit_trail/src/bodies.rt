//! A record as the body of a cell.
ghost use Rattle.std.specs.Prelude.{◌≡◌, ◌↔◌, ◌+◌, ◌-◌, ◌≤◌, ◌<◌, ◌++◌, ℕ, List, replicate, length, IfSome, IsNone, IsTrue};
ghost use Rattle.audit_trail.specs.Entries.{IsEntry};
ghost use Rattle.audit_trail.specs.RecordBody.{record_body, blank_body, Spells};
ghost use Rattle.audit_trail.specs.Reading.{record_in};
ghost use Rattle.audit_trail.specs.declared.entries.Entry.{Entry as AnyEntry};

use crate::entries::Entry;
use crate::trail::NUMBERS;
use key_cells::is_zero;

/// What byte 0 of a record is.
const VERSION: u8 = 1;

/// A record: its number, and what it says.
#[derive(Clone, Copy, Debug, PartialEq, Eq)]
pub(crate) struct Record {
    pub(crate) number: u64,
    pub(crate) entry: Entry,
}

/// Puts a piece behind `at` bytes of a body of which the others are zero.
fn put_next(body: &mut [u8; 192], at: usize, piece: &[u8])
    requires { at + length piece.now ≤ 192 }
    ensures { (front : List ℕ) → length front ≡ at → body.old ≡ front ++ replicate (192 - at) 0
        → body.new ≡ (front ++ piece.now) ++ replicate (192 - (at + length piece.now)) 0 }
{
    body[at..at + piece.len()].copy_from_slice(piece);
}

/// Writes the body of a record.
pub(crate) fn write_record(body: &mut [u8; 192], number: u64, entry: &Entry)
    requires { IsEntry entry.now }
    ensures { body.new ≡ record_body number entry.now }
{
    let number = number.to_be_bytes();
    body.fill(0);
    put_next(body, 0, &[VERSION, entry.rule]);
    put_next(body, 2, &number);
    put_next(body, 10, &entry.role);
    put_next(body, 18, &entry.verb);
    put_next(body, 28, &[entry.label_length]);
    put_next(body, 29, &entry.label);
}

/// Whether the body is that of a record.
fn is_record(body: &[u8; 192], number: u64, entry: &Entry) -> bool
    requires { IsEntry entry.now }
    ensures { IsTrue result ↔ (body.now ≡ record_body number entry.now) }
{
    let mut spelled = [0; 192];
    write_record(&mut spelled, number, entry);
    *body == spelled
}

/// Whether every byte is zero.
pub(crate) fn is_blank(body: &[u8; 192]) -> bool
    ensures { IsTrue result ↔ (body.now ≡ blank_body) }
{
    is_zero(body)
}

/// What stands in a body at the places of a record.
fn record_in(body: &[u8; 192]) -> Record
    ensures { result ≡ record_in body.now }
{
    let mut number = [0; 8];
    let mut role = [0; 8];
    let mut verb = [0; 10];
    let mut label = [0; 64];
    number.copy_from_slice(&body[2..10]);
    role.copy_from_slice(&body[10..18]);
    verb.copy_from_slice(&body[18..28]);
    label.copy_from_slice(&body[29..93]);
    Record {
        number: u64::from_be_bytes(number),
        entry: Entry {
            rule: body[1],
            role,
            verb,
            label,
            label_length: body[28],
        },
    }
}

/// The record that a body spells, where it spells one.
pub(crate) fn read_record(body: &[u8; 192]) -> Option<Record>
    ensures reads { IfSome result (λ r. Spells body.now r.number r.entry) }
    ensures none { IsNone result → (n : ℕ) (e : AnyEntry) → Spells body.now n e → ⊥ }
{
    let record = record_in(body);
    if record.number >= NUMBERS {
        return None;
    }
    if !record.entry.is_whole() {
        return None;
    }
    if is_record(body, record.number, &record.entry) {
        Some(record)
    } else {
        None
    }
}

/// What the body says, where it spells the record of this number.
pub(crate) fn read_entry(body: &[u8; 192], number: u64) -> Option<Entry>
    ensures reads { IfSome result (λ e. Spells body.now number e) }
    ensures none { IsNone result → (e : AnyEntry) → Spells body.now number e → ⊥ }
{
    match read_record(body) {
        Some(record) => {
            if record.number == number {
                Some(record.entry)
            } else {
                None
            }
        }
        None => None,
    }
}
