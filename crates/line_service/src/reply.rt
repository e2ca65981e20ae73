//! Reply lines.
ghost use Rattle.std.specs.Prelude.{◌≡◌, ℕ, ◌+◌, ◌*◌, ◌<◌, ◌≤◌, List, [], ◌∷◌, ◌++◌, length, take, decimal, IfOk};
ghost use Rattle.hex.specs.Hex.{encode_lower};
ghost use Rattle.line_service.specs.Lines.{newline};
ghost use Rattle.line_service.specs.Replies.{reply_limit, field_name, hex_field, text_field};
ghost use Rattle.line_service.specs.Replies.{number_field, ok_text, refusal};

use device_cells::NoMemory;
use itoa::Buffer;
use std::alloc::Global;
use std::marker::Model;

/// The most bytes that a reply line may have, its newline among them.
pub const REPLY_ROOM: usize = 69_632;

/// A reply line while it is written: `OK` and fields, or `NO`, a rule and its operand.
///
/// Clauses see it as the bytes written so far. A call copies its bytes and takes no memory.
#[derive(Drop)]
pub struct ReplyBuffer {
    room: Vec<u8>,
    used: usize,
}

impl Model for ReplyBuffer {
    ghost use Rattle.std.specs.Prelude.{◌≡◌, ◌≤◌, ℕ, List, length, take};
    ghost use Rattle.line_service.specs.declared.reply.TheConstants.{REPLY_ROOM};

    ghost Value = { List ℕ };

    ghost view = { λ b. take b.used b.room.items };

    ghost invariant = { λ b. (b.used ≤ REPLY_ROOM) × (length b.room.items ≡ REPLY_ROOM) };
}

impl ReplyBuffer {
    /// An empty buffer with room for `REPLY_ROOM` bytes.
    pub fn new(alloc: Global) -> Result<ReplyBuffer, NoMemory>
        ensures { IfOk result (λ buffer. buffer ≡ []) }
    {
        let room = vec![in alloc; 0; REPLY_ROOM]?;
        Ok(ReplyBuffer { room, used: 0 })
    }

    /// Empties the buffer.
    pub fn clear(&mut self)
        ensures { self.new ≡ [] }
    {
        self.used = 0;
    }

    /// Writes `OK`.
    #[tactic(auto, unfolding(crate::specs::Replies::ok_text))]
    pub fn ok(&mut self)
        requires { length self.old + 2 ≤ reply_limit }
        ensures bytes { self.new ≡ self.old ++ ok_text }
        ensures size { length self.new ≡ length self.old + 2 }
    {
        self.more(b"OK");
    }

    /// Writes `NO`, the number of a rule in two decimal digits, and the operand that broke it.
    #[tactic(auto, unfolding(crate::specs::Replies::refusal))]
    pub fn refuse(&mut self, rule: u8, operand: &str)
        requires two_digits { rule < 100 }
        requires room { length self.old + length operand.now + 6 ≤ reply_limit }
        ensures bytes { self.new ≡ self.old ++ refusal rule operand.now }
        ensures size { length self.new ≡ length self.old + length operand.now + 6 }
    {
        self.more(b"NO ");
        self.more(&[b'0' + rule / 10, b'0' + rule % 10]);
        self.more(b" ");
        self.more(operand.as_bytes());
    }

    /// Writes a field whose value is bytes, in lower-case hex.
    #[tactic(auto, unfolding(crate::specs::Replies::hex_field))]
    pub fn hex(&mut self, name: &str, bytes: &[u8])
        requires { length self.old + length name.now + 2 * length bytes.now + 2 ≤ reply_limit }
        ensures bytes { self.new ≡ self.old ++ hex_field name.now bytes.now }
        ensures size { length self.new
            ≡ length self.old + length name.now + 2 * length bytes.now + 2 }
    {
        self.field(name);
        put_hex(self.room.as_mut_slice(), self.used, bytes);
        self.used += 2 * bytes.len();
    }

    /// Writes a field whose value is text.
    #[tactic(auto, unfolding(crate::specs::Replies::text_field))]
    pub fn text(&mut self, name: &str, bytes: &[u8])
        requires { length self.old + length name.now + length bytes.now + 2 ≤ reply_limit }
        ensures bytes { self.new ≡ self.old ++ text_field name.now bytes.now }
        ensures size { length self.new ≡ length self.old + length name.now + length bytes.now + 2 }
    {
        self.field(name);
        self.more(bytes);
    }

    /// Writes a field whose value is a number, in decimal digits.
    #[tactic(auto, unfolding(crate::specs::Replies::number_field))]
    pub fn number(&mut self, name: &str, value: u32)
        requires { length self.old + length name.now + length (decimal value) + 2 ≤ reply_limit }
        ensures bytes { self.new ≡ self.old ++ number_field name.now value }
        ensures size { length self.new
            ≡ length self.old + length name.now + length (decimal value) + 2 }
        ensures short { length (decimal value) ≤ 10 }
    {
        self.field(name);
        let mut digits = Buffer::new();
        self.more(digits.format(value).as_bytes());
    }

    /// Writes the bytes alone, as the end of the field before.
    pub fn more(&mut self, bytes: &[u8])
        requires { length self.old + length bytes.now ≤ reply_limit }
        ensures bytes { self.new ≡ self.old ++ bytes.now }
        ensures size { length self.new ≡ length self.old + length bytes.now }
    {
        put(self.room.as_mut_slice(), self.used, bytes);
        self.used += bytes.len();
    }

    /// Ends the line.
    pub fn finish(&mut self)
        requires { length self.old + 1 ≤ reply_limit }
        ensures bytes { self.new ≡ self.old ++ newline ∷ [] }
        ensures size { length self.new ≡ length self.old + 1 }
    {
        self.more(b"\n");
    }

    /// The bytes written so far.
    pub fn bytes(&self) -> &[u8]
        ensures bytes { result.now ≡ self.now }
        ensures size { length self.now ≤ reply_limit }
    {
        &self.room[..self.used]
    }

    // Writes ` name=`.
    #[tactic(auto, unfolding(crate::specs::Replies::field_name))]
    fn field(&mut self, name: &str)
        requires { length self.old + length name.now + 2 ≤ reply_limit }
        ensures bytes { self.new ≡ self.old ++ field_name name.now }
        ensures size { length self.new ≡ length self.old + length name.now + 2 }
    {
        self.more(b" ");
        self.more(name.as_bytes());
        self.more(b"=");
    }
}

// Copies the bytes into the room behind its first `at` bytes.
fn put(room: &mut [u8], at: usize, bytes: &[u8])
    requires { at + length bytes.now ≤ length room.old }
    ensures front { take (at + length bytes.now) room.new ≡ take at room.old ++ bytes.now }
    ensures size { length room.new ≡ length room.old }
{
    room[at..at + bytes.len()].copy_from_slice(bytes);
}

// Writes the bytes in lower-case hex behind the first `at` bytes of the room.
fn put_hex(room: &mut [u8], at: usize, bytes: &[u8])
    requires { at + 2 * length bytes.now ≤ length room.old }
    ensures front { take (at + 2 * length bytes.now) room.new
        ≡ take at room.old ++ encode_lower bytes.now }
    ensures size { length room.new ≡ length room.old }
{
    hex::encode_to_slice(bytes, &mut room[at..at + 2 * bytes.len()]).unwrap();
}
