//! CSNBKRL: the labels that begin with a prefix.
ghost use Rattle.std.specs.Prelude.{◌≡◌, ◌+◌, ◌*◌, ◌≤◌, ◌++◌, ◌∷◌, [], ℕ, List, length, if◌then◌else◌, codes};
ghost use Rattle.key_cells.specs.declared.leases.Lease.{Lease};
ghost use Rattle.record_bodies.specs.Entries.{row_directory};
ghost use Rattle.master_registers.specs.declared.registers.Registers.{Registers};
ghost use Rattle.verb_script.specs.declared.rows.RequestName.TheVariants.{Csnbkrl as row};
ghost use Rattle.cca_machine.specs.Listing.{ascending, beginning, with_commas};
ghost use Rattle.cca_machine.specs.Decided.{Settles, asked};
ghost use Rattle.cca_machine.specs.declared.granted.Granted.{Granted};

use cca_machine::Effect;
use key_records::Records;
use verb_script::ReplyBuffer;

/// How many labels begin with the prefix.
fn count_beginning(prefix: &[u8], records: &Records) -> u32
    ensures count { result ≡ length (beginning prefix.now (ascending (row_directory records.now))) }
    ensures most { result ≤ 1024 }
{
    let mut count = 0;
    for index in 0..records.count() {
        if records.label_at(index).text().starts_with(prefix) {
            count += 1;
        }
    }
    count
}

/// Writes a label behind those before it, with a comma between.
fn put_label(label: &[u8], first: bool, reply: &mut ReplyBuffer)
    requires { length reply.old + length label.now + 1 ≤ 69000 }
    ensures bytes { reply.new ≡ reply.old ++ (if first then label.now else codes "," ++ label.now) }
    ensures size { length reply.new ≤ length reply.old + length label.now + 1 }
{
    if !first {
        reply.more(b",");
    }
    reply.more(label);
}

/// Writes the labels that begin with the prefix, with commas between.
fn put_beginning(prefix: &[u8], records: &Records, reply: &mut ReplyBuffer)
    requires { length reply.old ≤ 100 }
    ensures bytes { reply.new
        ≡ reply.old ++ with_commas (beginning prefix.now (ascending (row_directory records.now))) }
    ensures size { length reply.new ≤ length reply.old + 1024 * 65 }
{
    let mut first = true;
    for index in 0..records.count() {
        let label = records.label_at(index).text();
        if label.starts_with(prefix) {
            put_label(label, first, reply);
            first = false;
        }
    }
}

/// Shows how many labels begin with the prefix, and which, in ascending order. It goes over the
/// labels twice, and compares no two of them.
pub(crate) fn csnbkrl(prefix: &[u8], records: &Records, reply: &mut ReplyBuffer) -> Effect
    requires empty { reply.old ≡ [] }
    ensures settles { (role : List ℕ) (granted : Granted) (held : Registers) (lease : Lease)
        → Settles (asked row (role ∷ prefix.now ∷ []))
        granted held records.now lease lease result reply.new }
{
    reply.ok();
    reply.number("count", count_beginning(prefix, records));
    reply.text("labels", b"");
    put_beginning(prefix, records, reply);
    Effect::Shown
}
