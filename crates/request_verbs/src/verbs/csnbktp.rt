//! CSNBKTP: the parts of a key token.
ghost use Rattle.std.specs.Prelude.{◌≡◌, ◌+◌, ◌<◌, ◌≤◌, ◌++◌, ◌∷◌, [], ℕ, IsSome, List, Option, length, codes};
ghost use Rattle.cca_machine.specs.Act.{token_fields, kind_name, class_name, shown_vector};
ghost use Rattle.key_cells.specs.declared.leases.Lease.{Lease};
ghost use Rattle.record_bodies.specs.declared.rows.Row.{Row};
ghost use Rattle.master_registers.specs.declared.registers.Registers.{Registers};
ghost use Rattle.line_service.specs.Replies.{written, hex_field};
ghost use Rattle.verb_script.specs.declared.rows.RequestName.TheVariants.{Csnbktp as row};
ghost use Rattle.cca_machine.specs.Decided.{Settles, asked};

use cca_machine::{Effect, Granted, token_in};
use cca_vectors::{Class, Vector};
use key_tokens::{Kind, Token};
use verb_script::ReplyBuffer;

/// Shows the kind, class, length, control vector and master key pattern of a key token.
pub(crate) fn csnbktp(granted: &Granted, reply: &mut ReplyBuffer) -> Effect
    requires token { IsSome granted.now.first.token }
    requires empty { reply.old ≡ [] }
    ensures settles { (role token : List ℕ) (held : Registers) (rows : List (Option Row))
        (lease : Lease)
        → Settles (asked row (role ∷ token ∷ []))
        granted.now held rows lease lease result reply.new }
{
    show_parts(token_in(&granted.first), reply);
    Effect::Shown
}

#[tactic(auto, using(crate::proofs::TokenReply::decimal_size))]
fn show_parts(token: &Token, reply: &mut ReplyBuffer)
    requires { reply.old ≡ [] }
    ensures fields { reply.new ≡ written (token_fields token.now) }
    ensures size { length reply.new ≤ 1000 }
{
    reply.ok();
    reply.text("kind", name_of_kind(token.kind).as_bytes());
    reply.text("class", name_of_class(token.vector.class()).as_bytes());
    reply.number("length", token.vector.length() as u32);
    show_vector(&token.vector, reply);
    reply.hex("pattern", &token.pattern);
}

fn name_of_kind(kind: Kind) -> &'static str
    ensures name { result.now ≡ kind_name kind }
    ensures size { length result.now ≤ 8 }
{
    match kind {
        Kind::Internal => "internal",
        Kind::External => "external",
    }
}

fn name_of_class(class: Class) -> &'static str
    ensures name { result.now ≡ class_name class }
    ensures size { length result.now ≤ 8 }
{
    match class {
        Class::Data => "DATA",
        Class::Cipher => "CIPHER",
        Class::Mac => "MAC",
        Class::Exporter => "EXPORTER",
        Class::Importer => "IMPORTER",
        Class::Other => "OTHER",
    }
}

// The vector of the left half, and that of the right half where the key has one.
fn vector_bytes(vector: &Vector) -> [u8; 16]
    ensures { result ≡ vector.now }
{
    let mut bytes = [0; 16];
    join(&vector.left(), &vector.right(), &mut bytes);
    bytes
}

fn join(left: &[u8], right: &[u8], bytes: &mut [u8])
    requires left { length left.now ≡ 8 }
    requires right { length right.now ≡ 8 }
    requires room { length bytes.old ≡ 16 }
    ensures { bytes.new ≡ left.now ++ right.now }
{
    let (front, back) = bytes.split_at_mut(8);
    front.copy_from_slice(left);
    back.copy_from_slice(right);
}

fn show_vector(vector: &Vector, reply: &mut ReplyBuffer)
    requires { length reply.old ≤ 1000 }
    ensures bytes { reply.new ≡ reply.old ++ hex_field (codes "vector") (shown_vector vector.now) }
    ensures size { length reply.new ≤ length reply.old + 40 }
{
    if vector.length() == 8 {
        reply.hex("vector", &vector.left());
    } else {
        reply.hex("vector", &vector_bytes(vector));
    }
}
