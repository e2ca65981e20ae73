//! The text in its place in the bench, with the carried bytes before it and without the rest.
ghost use Rattle.std.specs.Prelude.{◌≡◌, ◌≤◌, ◌+◌, ◌-◌, ◌*◌, ◌/◌, ◌%◌, ◌++◌, drop, length, take};
ghost use Rattle.key_cells.specs.Bytes.{xor};
ghost use Rattle.des_blocks.specs.Modes.{blocks, fill, last_block};
ghost use Rattle.des_blocks.specs.Texts.{text_in};
ghost use Rattle.key_cells.specs.Bench.{with_size};
ghost use Rattle.key_cells.specs.Lease.{bench_of, holding};
ghost use Rattle.text_segments.specs.Segments.{rest_part, whole_part};

use key_cells::{Lease, ShortList};

/// How many bytes a block has.
const BLOCK: usize = 8;

/// Puts some bytes before a text, which moves up by as many: its last ones are lost.
fn put_before(text: &mut [u8], bytes: &[u8])
    requires { length bytes.now ≤ length text.old }
    ensures { text.new ≡ bytes.now ++ take (length text.old - length bytes.now) text.old }
{
    if bytes.is_empty() {
        return;
    }
    let kept = text.len() - bytes.len();
    text.copy_within(..kept, bytes.len());
    text[..bytes.len()].copy_from_slice(bytes);
}

/// Puts the carried bytes before the text: one move of the text, where there are some.
pub(crate) fn put_carried(lease: &mut Lease, carried: &ShortList<7>)
    requires { (bench_of lease.old).text.size ≤ 4088 }
    ensures text { text_in lease.new ≡ carried.now ++ text_in lease.old }
    ensures size { (bench_of lease.new).text.size
        ≡ length carried.now + (bench_of lease.old).text.size }
    ensures long { length (text_in lease.old) ≡ (bench_of lease.old).text.size }
    ensures few { length carried.now ≤ 7 }
    ensures past { let size = (bench_of lease.new).text.size in
        drop size (bench_of lease.new).text.bytes ≡ drop size (bench_of lease.old).text.bytes }
    ensures stays { lease.new
        ≡ holding lease.old (record (bench_of lease.old) { text = (bench_of lease.new).text }) }
{
    let bytes = carried.bytes();
    let size = lease.text().len();
    lease.set_text_length(bytes.len() + size);
    put_before(lease.text_mut(), bytes);
}

/// Takes the bytes after the whole blocks off the text.
pub(crate) fn take_rest(lease: &mut Lease) -> ShortList<7>
    requires { (bench_of lease.old).text.size ≤ 4096 }
    ensures rest { result ≡ rest_part (text_in lease.old) }
    ensures text { text_in lease.new ≡ whole_part (text_in lease.old) }
    ensures whole { (bench_of lease.new).text.size % 8 ≡ 0 }
    ensures stays { lease.new ≡ holding lease.old (with_size (bench_of lease.old)
        ((bench_of lease.old).text.size / 8 * 8)) }
{
    let whole = lease.text().len() / BLOCK * BLOCK;
    let rest = ShortList::of(&lease.text()[whole..]);
    lease.set_text_length(whole);
    rest
}

/// The last of the blocks of a text, or another block where there is none.
pub(crate) fn last_block(text: &[u8], start: &[u8; 8]) -> [u8; 8]
    requires { length text.now % 8 ≡ 0 }
    ensures { result ≡ last_block start.now (blocks text.now) }
{
    if text.is_empty() {
        return *start;
    }
    let mut block = [0; BLOCK];
    block.copy_from_slice(&text[text.len() - BLOCK..]);
    block
}

/// Combines the first block of a text with another block.
fn combine_front(text: &mut [u8], block: &[u8; 8])
    requires { 8 ≤ length text.old }
    ensures { text.new ≡ xor (take 8 text.old) block.now ++ drop 8 text.old }
{
    key_cells::xor(&mut text[..BLOCK], block);
}

/// Combines the first block of the text with the start of a chain.
pub(crate) fn combine_start(lease: &mut Lease, start: &[u8; 8])
    requires { 8 ≤ (bench_of lease.old).text.size }
    ensures text { text_in lease.new
        ≡ xor (take 8 (text_in lease.old)) start.now ++ drop 8 (text_in lease.old) }
    ensures size { (bench_of lease.new).text.size ≡ (bench_of lease.old).text.size }
    ensures long { length (text_in lease.old) ≡ (bench_of lease.old).text.size }
    ensures block { length start.now ≡ 8 }
    ensures past { let size = (bench_of lease.new).text.size in
        drop size (bench_of lease.new).text.bytes ≡ drop size (bench_of lease.old).text.bytes }
    ensures stays { lease.new
        ≡ holding lease.old (record (bench_of lease.old) { text = (bench_of lease.new).text }) }
{
    combine_front(lease.text_mut(), start);
}

/// Fills the text with zeros to whole blocks.
pub(crate) fn fill_text(lease: &mut Lease)
    requires { (bench_of lease.old).text.size ≤ 4096 }
    ensures text { text_in lease.new ≡ fill (text_in lease.old) }
    ensures size { (bench_of lease.new).text.size
        ≡ ((bench_of lease.old).text.size + 7) / 8 * 8 }
    ensures room { (bench_of lease.new).text.size ≤ 4096 }
    ensures past { let size = (bench_of lease.new).text.size in
        drop size (bench_of lease.new).text.bytes ≡ drop size (bench_of lease.old).text.bytes }
    ensures stays { lease.new
        ≡ holding lease.old (record (bench_of lease.old) { text = (bench_of lease.new).text }) }
{
    let size = lease.text().len();
    lease.set_text_length(size.div_ceil(BLOCK) * BLOCK);
    lease.text_mut()[size..].fill(0);
}
